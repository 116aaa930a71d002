//! Algebras of transients: a grade for every transient, and operations on grades.

ghost use Rattle.std.specs.Prelude.{◌≡◌, Bool, true};
ghost use Rattle.algebras.specs.Sums.{sum2, product2, exclusive2};
ghost use Rattle.algebras.specs.Transient.{Transient, complement, driven, zero_word, one_word};

/// An algebra gives every transient a grade, and works on grades alone. None of its operations refuses.
/// Every entry may be worked: one that is no transient's grade is worked by the rule that the ghost members state.
pub trait Algebra {
    type Grade: Copy;

    // The grade of a transient. Transients with one grade are alike.
    ghost grade: { Self → Transient → Self.Grade };

    // What an entry is read as.
    ghost reads: { Self → Self.Grade → Self.Grade };

    ghost complements: { Self → Self.Grade → Self.Grade };

    ghost sums: { Self → Self.Grade → Self.Grade → Self.Grade };

    ghost products: { Self → Self.Grade → Self.Grade → Self.Grade };

    ghost exclusives: { Self → Self.Grade → Self.Grade → Self.Grade };

    // Whether two entries are the same.
    ghost alikes: { Self → Self.Grade → Self.Grade → Bool };

    /// The grade of a drive: the word with that start and so many changes.
    // Two arguments and no struct: the drives of inputs are of nets, which stand above.
    fn drive(&self, start: bool, changes: u8) -> Self::Grade
        ensures { result ≡ grade self.now (driven start changes) };

    /// An entry as read.
    fn read(&self, x: Self::Grade) -> Self::Grade
        ensures { result ≡ reads self.now x };

    /// The complement of a grade.
    fn complement(&self, x: Self::Grade) -> Self::Grade
        ensures { result ≡ complements self.now x };

    /// The sum of two grades.
    fn sum(&self, x: Self::Grade, y: Self::Grade) -> Self::Grade
        ensures { result ≡ sums self.now x y };

    /// The product of two grades.
    fn product(&self, x: Self::Grade, y: Self::Grade) -> Self::Grade
        ensures { result ≡ products self.now x y };

    /// The exclusive sum of two grades.
    fn exclusive_sum(&self, x: Self::Grade, y: Self::Grade) -> Self::Grade
        ensures { result ≡ exclusives self.now x y };

    /// Whether two entries read equal.
    fn same(&self, x: Self::Grade, y: Self::Grade) -> bool
        ensures { result ≡ alikes self.now x y };

    // The words 0 and 1 are each alike to no other transient.
    ghost zero_alone: { (a : Self) (t : Transient) → grade a t ≡ grade a zero_word → t ≡ zero_word };

    ghost one_alone: { (a : Self) (t : Transient) → grade a t ≡ grade a one_word → t ≡ one_word };

    // A transient's grade is read as itself.
    ghost reads_grade: { (a : Self) (t : Transient) → reads a (grade a t) ≡ grade a t };

    // Each operation, at grades, is the grade of its result, for every choice of transients with these grades.
    ghost complements_grade: { (a : Self) (t : Transient) → complements a (grade a t) ≡ grade a (complement t) };

    ghost sums_grades: { (a : Self) (s t : Transient) → sums a (grade a s) (grade a t) ≡ grade a (sum2 s t) };

    ghost products_grades: { (a : Self) (s t : Transient) → products a (grade a s) (grade a t) ≡ grade a (product2 s t) };

    ghost exclusives_grades: { (a : Self) (s t : Transient) → exclusives a (grade a s) (grade a t) ≡ grade a (exclusive2 s t) };

    // Two entries are the same exactly where they read equal.
    ghost alike_reads: { (a : Self) (x y : Self.Grade) → alikes a x y ≡ true → reads a x ≡ reads a y };

    ghost reads_alike: { (a : Self) (x y : Self.Grade) → reads a x ≡ reads a y → alikes a x y ≡ true };
}
