// The two tables that hold a plan, lent to be read.
ghost use Rattle.std.proofs.Props.{props};
ghost use Rattle.recount.specs.Core.{Laid, holds_prop};

// They hold the plan that is read back from them, and have room for it.
#[derive(Clone, Copy)]
pub struct Tables<'a> {
    pub tables: &'a [u8],
    pub terms: &'a [u8],
    pub ghost laid: { Laid tables.now terms.now } by { Prim.hlevel (props, holds_prop) },
}
