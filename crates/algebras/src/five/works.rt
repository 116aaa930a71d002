//! What the five-valued algebra does.

ghost use Rattle.std.specs.Prelude.{◌≡◌, slice_index};
ghost use Rattle.algebras.specs.Five.{symbol_code, symbol_of, symbol_for, five, pair_place};
ghost use Rattle.algebras.specs.Five.{five_read, five_complement, five_sum, five_product, five_exclusive, five_alike};
ghost use Rattle.algebras.specs.Transient.{Transient};
ghost use Rattle.algebras.specs.Sums.{sum2, product2, exclusive2};
ghost use Rattle.algebras.specs.Fives.{operation_grades, sum_symbols, product_symbols, exclusive_symbols};
ghost use Rattle.std.proofs.Common.{rules};

use crate::algebra::Algebra;
use crate::five::{Five, FiveGrade, Symbol};

// The operations are constant tables of codes, so that each can be read and checked as a whole.

// The complement of each code.
const COMPLEMENTS: [u8; 5] = [1, 0, 3, 2, 4];

// The sum of two codes x and y, at 5 * x + y.
const SUMS: [u8; 25] = [
    0, 1, 2, 3, 4, // sums with 0
    1, 1, 1, 1, 1, // sums with 1
    2, 1, 2, 4, 4, // sums with 0/1
    3, 1, 4, 3, 4, // sums with 1/0
    4, 1, 4, 4, 4, // sums with ½
];

// The product, at the same place.
const PRODUCTS: [u8; 25] = [
    0, 0, 0, 0, 0, // products with 0
    0, 1, 2, 3, 4, // products with 1
    0, 2, 2, 4, 4, // products with 0/1
    0, 3, 4, 3, 4, // products with 1/0
    0, 4, 4, 4, 4, // products with ½
];

// The exclusive sum, at the same place.
const EXCLUSIVE_SUMS: [u8; 25] = [
    0, 1, 2, 3, 4, // exclusive sums with 0
    1, 0, 3, 2, 4, // exclusive sums with 1
    2, 3, 4, 4, 4, // exclusive sums with 0/1
    3, 2, 4, 4, 4, // exclusive sums with 1/0
    4, 4, 4, 4, 4, // exclusive sums with ½
];

impl From<Symbol> for u8 {
    ghost from_gives = { λ s n. n ≡ symbol_code s };

    /// The code of a symbol.
    fn from(symbol: Symbol) -> u8 {
        // An enum becomes its number by `as` alone.
        symbol as u8
    }
}

impl From<Symbol> for FiveGrade {
    ghost from_gives = { λ s x. x ≡ record { code = symbol_code s } };

    /// The grade of the transients with a symbol.
    fn from(symbol: Symbol) -> FiveGrade {
        FiveGrade {
            code: u8::from(symbol),
        }
    }
}

impl Five {
    /// The symbol of an entry as read: of a transient's grade, that of every transient with this grade.
    pub fn symbol(&self, x: FiveGrade) -> Symbol
        ensures value { result ≡ symbol_of x }
        ensures told { (t : Transient) → x ≡ five t → result ≡ symbol_for t }
    {
        match x.code {
            0 => Symbol::Zero,
            1 => Symbol::One,
            2 => Symbol::Rise,
            3 => Symbol::Fall,
            _ => Symbol::Half,
        }
    }

    // What a table of codes has of two entries.
    fn look_up(&self, table: &[u8; 25], x: FiveGrade, y: FiveGrade) -> FiveGrade
        ensures { result ≡ record { code = slice_index table.now (pair_place (symbol_of x) (symbol_of y)) } }
    {
        let row = usize::from(u8::from(self.symbol(x)));
        let column = usize::from(u8::from(self.symbol(y)));
        FiveGrade {
            code: table[5 * row + column],
        }
    }
}

impl Algebra for Five {
    type Grade = FiveGrade;

    ghost grade = { λ a t. five t };

    ghost reads = { λ a x. five_read x };

    ghost complements = { λ a x. five_complement x };

    ghost sums = { λ a x y. five_sum x y };

    ghost products = { λ a x y. five_product x y };

    ghost exclusives = { λ a x y. five_exclusive x y };

    ghost alikes = { λ a x y. five_alike x y };

    ghost zero_alone = { Prim.search rules };

    ghost one_alone = { Prim.search rules };

    ghost reads_grade = { Prim.search rules };

    ghost complements_grade = { Prim.search rules };

    ghost sums_grades = { λ a s t. operation_grades sum2 sum_symbols s t };

    ghost products_grades = { λ a s t. operation_grades product2 product_symbols s t };

    ghost exclusives_grades = { λ a s t. operation_grades exclusive2 exclusive_symbols s t };

    ghost alike_reads = { Prim.search rules };

    ghost reads_alike = { Prim.search rules };

    fn drive(&self, start: bool, changes: u8) -> FiveGrade {
        let symbol = match (start, changes) {
            (false, 0) => Symbol::Zero,
            (true, 0) => Symbol::One,
            (false, 1) => Symbol::Rise,
            (true, 1) => Symbol::Fall,
            (_, _) => Symbol::Half,
        };
        symbol.into()
    }

    fn read(&self, x: FiveGrade) -> FiveGrade {
        self.symbol(x).into()
    }

    fn complement(&self, x: FiveGrade) -> FiveGrade {
        FiveGrade {
            code: COMPLEMENTS[usize::from(u8::from(self.symbol(x)))],
        }
    }

    fn sum(&self, x: FiveGrade, y: FiveGrade) -> FiveGrade {
        self.look_up(&SUMS, x, y)
    }

    fn product(&self, x: FiveGrade, y: FiveGrade) -> FiveGrade {
        self.look_up(&PRODUCTS, x, y)
    }

    fn exclusive_sum(&self, x: FiveGrade, y: FiveGrade) -> FiveGrade {
        self.look_up(&EXCLUSIVE_SUMS, x, y)
    }

    fn same(&self, x: FiveGrade, y: FiveGrade) -> bool {
        self.symbol(x) == self.symbol(y)
    }
}
