// The two tables of a plan whose text is written, lent to be read.

ghost use Rattle.std.proofs.Props.{props};
ghost use Rattle.opbtext.specs.Whole.{WholeFits};

// They are those of a plan within the limits.
#[derive(Clone, Copy)]
pub struct Whole<'a> {
    pub tables: &'a [u8],
    pub terms: &'a [u8],
    pub ghost fits: { WholeFits tables.now terms.now } by { Prim.hlevel props },
}
