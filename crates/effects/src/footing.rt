// What the walk stands on, lent to be read: a plan, an assignment and its tallies.
ghost use Rattle.std.specs.Prelude.{◌≡◌, T, take};
ghost use Rattle.std.proofs.Props.{props};
ghost use Rattle.plpb.specs.Tallies.{fresh_count};
ghost use Rattle.format.specs.Tables.{plan_of_tables};
ghost use Rattle.tallies.specs.Layout.{tally_size, are_bits, tally_bytes};
ghost use Rattle.recount.specs.Core.{Ready, holds_prop};
ghost use Rattle.columns.specs.Columns.{Sized, Needed};
ghost use Rattle.effects.specs.Kept.{lent_bits};

use recount::tables::Tables;

// The tallies are those of the assignment, and the columns beside them those of the plan. The marks are not among them, since a choice writes to them.
// Tables and terms are no `Tables` in it: `Tables` has `laid`, which `ready` says already, and with it the fact would stand twice.
#[derive(Clone, Copy)]
pub struct Footing<'a> {
    pub tables: &'a [u8],
    pub terms: &'a [u8],
    pub assignment: &'a [u8],
    pub tallies: &'a [u8],
    pub ghost ready: { Ready tables.now terms.now assignment.now } by { Prim.hlevel (props, holds_prop) },
    pub ghost bits: { T (are_bits (plan_of_tables tables.now terms.now).variables assignment.now) },
    pub ghost fresh: { take tally_size tallies.now
        ≡ tally_bytes (fresh_count (plan_of_tables tables.now terms.now) (lent_bits tables.now terms.now assignment.now)) },
    pub ghost sized: { Sized (plan_of_tables tables.now terms.now) tallies.now } by { Prim.hlevel props },
    pub ghost needed: { Needed (plan_of_tables tables.now terms.now) tallies.now } by { Prim.hlevel props },
}

impl<'a> Footing<'a> {
    // The tables of the plan alone.
    pub fn plan(&self) -> Tables<'a>
        ensures { (result.tables.now ≡ self.now.tables.now) × (result.terms.now ≡ self.now.terms.now) }
    {
        Tables {
            tables: self.tables,
            terms: self.terms,
        }
    }
}
