// The terms of one rule in a table of words, lent to be read.

ghost use Rattle.std.proofs.Props.{props};
ghost use Rattle.extremes.specs.Terms.{TermsFit};

// They stand there from the first on, and have lawful weights. The whole table is lent, since the terms of a plan are told by their numbers in it.
// First and count stand as the table has them, which the definitions read.
#[derive(Clone, Copy)]
pub struct Sum<'a> {
    pub terms: &'a [u8],
    pub first: usize,
    pub count: usize,
    pub ghost fits: { TermsFit terms.now first count } by { Prim.hlevel props },
}
