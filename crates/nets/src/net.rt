//! A net: an algebra and a table of wires.

ghost use Rattle.std.specs.Prelude.{◌≤◌, map, vec_len, vec_capacity};
ghost use Rattle.nets.specs.Wires.{Fitting, Lower};
ghost use Rattle.nets.specs.Tables.{plain};

use crate::wire::Wire;
use algebras::algebra::Algebra;

pub mod ask;
pub mod place;
pub mod play;
pub mod read;
pub(crate) mod work;
pub mod write;

/// The wires of a net, of which there are at most 512, in the order of placing.
#[derive(Drop)]
pub struct Table {
    wires: Vec<Wire>,
    ghost few: { vec_len wires ≤ 512 },
    ghost room: { 512 ≤ vec_capacity wires },
}

/// A net under an algebra. The grades of its wires stand in a column that the caller brings to each call.
#[derive(Drop)]
pub struct Net<L: Algebra> {
    algebra: L,
    table: Table,
    ghost lower: { Lower (map plain table.wires.items) },
    ghost fitting: { Fitting (map plain table.wires.items) },
}
