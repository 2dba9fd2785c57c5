// Figures over many runs: what is lent and asked is tested once, the runs are made, and every buffer lent for writing is cleared.
// The buffers to write come one by one: one is read while another is written, which a struct of them would not let be proved. Each may have any length, as C
// lends it: the report is the refusal 21 where one is too short, so that no type can have its length.
// What is only read comes one by one as well, as C hands it over and the runs take it: a struct of it would be made for one call and taken apart in the next.
#![tactic(auto)]

ghost use Rattle.std.specs.Prelude.{◌≡◌};
ghost use Rattle.lending.specs.Lent.{lent_all};
ghost use Rattle.trials.specs.Trials.{runs_refusal};
ghost use Rattle.reports.specs.Calls.{Reports};

use figures::Figures;
use lending::{Lent, clear_first, clear_work};
use runs::repeat_runs;
use trials::{Trial, runs_refusal};

// The runs of what passed its tests.
fn reported(
    tables: &[u8],
    terms: &[u8],
    t: Trial,
    numbers: &mut [u8],
    assignment: &mut [u8],
    work_tables: &mut [u8],
    work_terms: &mut [u8],
    work_assignment: &mut [u8],
    work_tallies: &mut [u8],
    work_marks: &mut [u8],
) -> Figures
    requires { runs_refusal
        (lent_all tables.now terms.now numbers.old assignment.old work_tables.old work_terms.old work_assignment.old
        work_tallies.old work_marks.old) t ≡ 0 }
    ensures { Reports
        (lent_all tables.now terms.now numbers.old assignment.old work_tables.old
        work_terms.old work_assignment.old work_tallies.old work_marks.old)
        t result
        (lent_all tables.now terms.now numbers.new assignment.new work_tables.new
        work_terms.new work_assignment.new work_tallies.new work_marks.new) }
{
    let sums = repeat_runs(
        tables,
        terms,
        t,
        numbers,
        assignment,
        work_tables,
        work_terms,
        work_assignment,
        work_tallies,
        work_marks,
    );
    clear_first(numbers, trials::NUMBERS);
    clear_first(assignment, format::ASSIGNMENT);
    clear_work(
        work_tables,
        work_terms,
        work_assignment,
        work_tallies,
        work_marks,
    );
    sums.figures(u64::from(t.runs))
}

// The refusal is a number, as C sees it among the figures.
pub fn report(
    tables: &[u8],
    terms: &[u8],
    t: Trial,
    numbers: &mut [u8],
    assignment: &mut [u8],
    work_tables: &mut [u8],
    work_terms: &mut [u8],
    work_assignment: &mut [u8],
    work_tallies: &mut [u8],
    work_marks: &mut [u8],
) -> Figures
    ensures { Reports
        (lent_all tables.now terms.now numbers.old assignment.old work_tables.old
        work_terms.old work_assignment.old work_tallies.old work_marks.old)
        t result
        (lent_all tables.now terms.now numbers.new assignment.new work_tables.new
        work_terms.new work_assignment.new work_tallies.new work_marks.new) }
{
    let lent = Lent {
        tables,
        terms,
        numbers,
        assignment,
        work_tables,
        work_terms,
        work_assignment,
        work_tallies,
        work_marks,
    };
    let refusal = runs_refusal(&lent, t);
    if refusal != 0 {
        return Figures::refused(refusal);
    }
    reported(
        tables,
        terms,
        t,
        numbers,
        assignment,
        work_tables,
        work_terms,
        work_assignment,
        work_tallies,
        work_marks,
    )
}
