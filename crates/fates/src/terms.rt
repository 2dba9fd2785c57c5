// The terms of a field of a plan file, lent to be read with a map of their variables.

ghost use Rattle.std.proofs.Props.{props};
ghost use Rattle.fates.specs.Sums.{TermsFit};

use crate::map::Map;

// They stand in the file from a place on. The whole file is lent, because a field is stated by its place in it.
#[derive(Clone, Copy)]
pub struct Terms<'a> {
    pub file: &'a [u8],
    pub from: usize,
    pub count: usize,
    pub map: Map<'a>,
    pub ghost fits: { TermsFit file.now from count } by { Prim.hlevel props },
}
