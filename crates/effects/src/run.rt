// A variable's run in what the walk stands on, lent to be read.
ghost use Rattle.std.specs.Prelude.{◌≡◌, ◌-◌};
ghost use Rattle.std.proofs.Props.{props};
ghost use Rattle.order.specs.Order.{run_end};
ghost use Rattle.format.specs.Tables.{plan_of_tables};
ghost use Rattle.recount.specs.Core.{holds_prop};
ghost use Rattle.effects.specs.Kept.{Going};
ghost use Rattle.effects.specs.Footing.{HasPlaces};

use crate::footing::Footing;
use recount::clause::run_of;

// The run of a variable: the places of the order from the first on, below the end. The marks have the weights of its terms.
// First and end are two numbers: a `Range` is not `Copy`, so that each chain over the places would clone it.
#[derive(Clone, Copy)]
pub struct Run<'a, 'b> {
    pub footing: &'b Footing<'a>,
    pub marks: &'b [u8],
    pub x: usize,
    pub first: usize,
    pub end: usize,
    pub ghost going: { Going footing.now.tables.now footing.now.terms.now footing.now.assignment.now footing.now.tallies.now
        marks.now x } by { Prim.hlevel (props, holds_prop) },
    pub ghost begins: { first ≡ run_end (plan_of_tables footing.now.tables.now footing.now.terms.now) (x - 1) },
    pub ghost ends: { end ≡ run_end (plan_of_tables footing.now.tables.now footing.now.terms.now) x },
}

impl<'a, 'b> Run<'a, 'b> {
    // The run of x.
    pub fn of(footing: &'b Footing<'a>, marks: &'b [u8], x: usize) -> Run<'a, 'b>
        requires { HasPlaces footing.now marks.now x }
        ensures { (result.footing.now ≡ footing.now) × (result.marks.now ≡ marks.now) × (result.x ≡ x) }
    {
        let at = run_of(footing.tables, x);
        Run {
            footing,
            marks,
            x,
            first: at.start,
            end: at.end,
        }
    }
}
