// The search with its tests: what is lent and set is tested, the plan is searched, the work tables are cleared.
// The buffers to write come one by one: one is read while another is written, which a struct of them would not let be proved. Each may have any length, as C
// lends it: the search answers 21 for one that is too short, so that no type can have its length.
// What is only read comes one by one as well, as C hands it over and the walk takes it: a struct of it would be made for one call and taken apart in the next.
#![tactic(auto)]

ghost use Rattle.std.specs.Prelude.{◌≡◌};
ghost use Rattle.search.specs.Calls.{Searches, HandsOut};
ghost use Rattle.lending.specs.Lent.{lent_all, search_refusal};

use answers::Answer;
use lending::{Lent, clear_work};
use settings::Settings;
use walk::search_core;

// The search of what passed its tests.
fn searched(
    tables: &[u8],
    terms: &[u8],
    numbers: &[u8],
    s: Settings,
    assignment: &mut [u8],
    work_tables: &mut [u8],
    work_terms: &mut [u8],
    work_assignment: &mut [u8],
    work_tallies: &mut [u8],
    work_marks: &mut [u8],
) -> Answer
    requires { search_refusal
        (lent_all tables.now terms.now numbers.now assignment.old work_tables.old work_terms.old work_assignment.old
        work_tallies.old work_marks.old) s ≡ 0 }
    ensures searches { Searches
        (lent_all tables.now terms.now numbers.now assignment.old work_tables.old
        work_terms.old work_assignment.old work_tallies.old work_marks.old)
        s result
        (lent_all tables.now terms.now numbers.now assignment.new work_tables.new
        work_terms.new work_assignment.new work_tallies.new work_marks.new) }
    ensures hands_out { HandsOut
        (lent_all tables.now terms.now numbers.now assignment.old work_tables.old
        work_terms.old work_assignment.old work_tallies.old work_marks.old) result
        assignment.new }
{
    let r = search_core(
        tables,
        terms,
        numbers,
        s,
        assignment,
        work_tables,
        work_terms,
        work_assignment,
        work_tallies,
        work_marks,
    );
    clear_work(
        work_tables,
        work_terms,
        work_assignment,
        work_tallies,
        work_marks,
    );
    Answer {
        refusal: 0,
        ending: u32::from(r.ending),
        cost: r.progress.cost,
        finds: r.progress.finds,
        flips: r.progress.spent.flips,
        used: r.progress.spent.used,
    }
}

// The answer is what C sees: a refusal is a number in it, and then the rest of it is 0. `lending` gives that number, which goes out as it is.
pub fn search(
    tables: &[u8],
    terms: &[u8],
    numbers: &[u8],
    s: Settings,
    assignment: &mut [u8],
    work_tables: &mut [u8],
    work_terms: &mut [u8],
    work_assignment: &mut [u8],
    work_tallies: &mut [u8],
    work_marks: &mut [u8],
) -> Answer
    ensures searches { Searches
        (lent_all tables.now terms.now numbers.now assignment.old work_tables.old
        work_terms.old work_assignment.old work_tallies.old work_marks.old)
        s result
        (lent_all tables.now terms.now numbers.now assignment.new work_tables.new
        work_terms.new work_assignment.new work_tallies.new work_marks.new) }
    ensures hands_out { HandsOut
        (lent_all tables.now terms.now numbers.now assignment.old work_tables.old
        work_terms.old work_assignment.old work_tallies.old work_marks.old) result
        assignment.new }
{
    let lent = Lent {
        tables,
        terms,
        numbers,
        assignment,
        work_tables,
        work_terms,
        work_assignment,
        work_tallies,
        work_marks,
    };
    let refusal = lent.refusal(s);
    if refusal != 0 {
        return Answer {
            refusal,
            ending: 0,
            cost: 0,
            finds: 0,
            flips: 0,
            used: 0,
        };
    }
    searched(
        tables,
        terms,
        numbers,
        s,
        assignment,
        work_tables,
        work_terms,
        work_assignment,
        work_tallies,
        work_marks,
    )
}
