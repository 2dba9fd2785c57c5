// The search from its first find on.
// The buffers to write come one by one: one is read while another is written, which a struct of them would not let be proved.
// Why numbers and settings stay two stands at the top of `walk`.
#![tactic(auto)]

ghost use Rattle.std.specs.Prelude.{◌≡◌, drop};
ghost use Rattle.format.specs.Tables.{table_size, term_size};
ghost use Rattle.settings.specs.Settings.{settings_of};
ghost use Rattle.lending.specs.Work.{work};
ghost use Rattle.finds.specs.Whole.{FirstFind, FromFind};

use costs::floor_cost;
use objective::added::add_bound;
use progress::{Ending, Progress, Searched, keep_find};
use settings::Settings;
use tighten::tighten;
use tries::Spent;

// From the first find on: the clause is added to the tables, and each call sets its own bound.
pub fn from_find(
    numbers: &[u8],
    s: Settings,
    spent: Spent,
    assignment: &mut [u8],
    tables: &mut [u8],
    terms: &mut [u8],
    tried: &mut [u8],
    tallies: &mut [u8],
    marks: &mut [u8],
) -> Searched
    requires { FirstFind tables.old terms.old numbers.now spent.used spent.flips assignment.old (work tried.old tallies.old marks.old) }
    ensures { FromFind (settings_of s) tables.old terms.old numbers.now spent.used spent.flips result assignment.old
        assignment.new (work tried.old tallies.old marks.old)
        (work tried.new tallies.new marks.new)
        × (drop table_size tables.new ≡ drop table_size tables.old)
        × (drop term_size terms.new ≡ drop term_size terms.old) }
{
    let v = keep_find(tables, tried, assignment);
    let floor = floor_cost(tables);
    let at = Progress {
        cost: v,
        finds: 1,
        spent,
    };
    if v <= floor {
        return Searched {
            ending: Ending::Floor,
            progress: at,
        };
    }
    add_bound(tables, terms, 0);
    tighten(
        tables, terms, numbers, s, floor, at, assignment, tried, tallies, marks,
    )
}
