// The entries of a plan's clauses and rules, lent to be counted.

ghost use Rattle.std.proofs.Props.{props};
ghost use Rattle.linecount.specs.Counts.{CountsFit};

// They stand in the table of words that holds the plan but for its terms.
#[derive(Clone, Copy)]
pub struct Entries<'a> {
    pub tables: &'a [u8],
    pub ghost fit: { CountsFit tables.now } by { Prim.hlevel props },
}
