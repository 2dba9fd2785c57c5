// The search of tables that are known to fit: the first call with the plan alone, then the tightening.
// The buffers to write come one by one: one is read while another is written, which a struct of them would not let be proved.
// What is only read comes one by one as well, as C hands it over (see `search`).
// Numbers and settings stay two: no fact ties them, and each contract speaks of them apart (`numbers.now`, `settings_of s`), so that a struct would only
// lengthen it.
#![tactic(auto)]

ghost use Rattle.std.specs.Prelude.{◌≡◌, drop};
ghost use Rattle.format.specs.Tables.{plan_of_tables, table_size, term_size};
ghost use Rattle.settings.specs.Settings.{settings_of};
ghost use Rattle.lending.specs.Work.{work};
ghost use Rattle.finds.specs.Whole.{FirstCall, Searchable, Whole};

use finds::nothing;
use first::first_call;
use onward::from_find;
use progress::Searched;
use settings::Settings;
use tries::{Spent, Unreached};

// From the first call on: it found nothing, or the search goes on from its find. Why `nothing` takes the whole result stands there.
fn from_call(
    t: Result<Spent, Unreached>,
    numbers: &[u8],
    s: Settings,
    assignment: &mut [u8],
    tables: &mut [u8],
    terms: &mut [u8],
    tried: &mut [u8],
    tallies: &mut [u8],
    marks: &mut [u8],
) -> Searched
    requires { FirstCall (settings_of s) tables.old terms.old numbers.now t assignment.old (work tried.old tallies.old marks.old) }
    ensures { Whole (settings_of s) (plan_of_tables tables.old terms.old) numbers.now result
        assignment.old assignment.new (work tried.old tallies.old marks.old)
        (work tried.new tallies.new marks.new)
        × (drop table_size tables.new ≡ drop table_size tables.old)
        × (drop term_size terms.new ≡ drop term_size terms.old) }
{
    match t {
        Ok(spent) => from_find(
            numbers, s, spent, assignment, tables, terms, tried, tallies, marks,
        ),
        Err(_) => nothing(t),
    }
}

// The search of tables that are known to fit.
pub fn search_core(
    plan: &[u8],
    plan_terms: &[u8],
    numbers: &[u8],
    s: Settings,
    assignment: &mut [u8],
    tables: &mut [u8],
    terms: &mut [u8],
    tried: &mut [u8],
    tallies: &mut [u8],
    marks: &mut [u8],
) -> Searched
    requires { Searchable plan.now plan_terms.now assignment.old tables.old terms.old (work tried.old tallies.old marks.old) }
    ensures { Whole (settings_of s) (plan_of_tables plan.now plan_terms.now) numbers.now result
        assignment.old assignment.new (work tried.old tallies.old marks.old)
        (work tried.new tallies.new marks.new)
        × (drop table_size tables.new ≡ drop table_size tables.old)
        × (drop term_size terms.new ≡ drop term_size terms.old) }
{
    let t = first_call(
        plan, plan_terms, numbers, s, tables, terms, tried, tallies, marks,
    );
    from_call(
        t, numbers, s, assignment, tables, terms, tried, tallies, marks,
    )
}
