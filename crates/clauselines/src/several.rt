// The rules of a clause with several, lent to be read.

ghost use Rattle.std.proofs.Props.{props};
ghost use Rattle.clauselines.specs.Clauses.{RulesFit};

// They are those of the tables from the first on; so many variables stand before their new ones.
// First and count stand as the table has them, which the definitions read.
#[derive(Clone, Copy)]
pub struct Several<'a> {
    pub tables: &'a [u8],
    pub terms: &'a [u8],
    pub first: usize,
    pub count: usize,
    pub before: usize,
    pub ghost fit: { RulesFit tables.now terms.now first count before } by { Prim.hlevel props },
}
