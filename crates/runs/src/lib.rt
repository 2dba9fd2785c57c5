// Runs of the search in a row, each over the next numbers of the generator. One run's numbers are written over those of the run before it.
// The buffers to write come one by one: one is read while another is written, which a struct of them would not let be proved. Each may be longer than the
// search needs, as C lends it, so that no type can have its length.
// What is only read comes one by one as well, as C hands it over and the walk takes it: a struct of it would be made for one call and taken apart in the next.
#![tactic(auto)]

ghost use Rattle.std.specs.Prelude.{◌≤◌};
ghost use Rattle.lending.specs.Lent.{lent_all};
ghost use Rattle.figures.specs.Figures.{AtMost};
ghost use Rattle.runs.specs.Repeating.{Ready, RunsOnce, Repeats};

use figures::Sums;
use settings::Settings;
use trials::Trial;
use walk::search_core;
use xorwow::{Xorwow, fill};

// How far runs have come: the generator's state and the sums.
#[derive(Clone, Copy)]
pub struct Ran {
    pub state: Xorwow,
    pub sums: Sums,
}

// One run more. How many numbers it takes stands beside them, because what stands behind those in the buffer is lent too.
fn run_once(
    tables: &[u8],
    terms: &[u8],
    from: Ran,
    count: usize,
    s: Settings,
    numbers: &mut [u8],
    assignment: &mut [u8],
    work_tables: &mut [u8],
    work_terms: &mut [u8],
    work_assignment: &mut [u8],
    work_tallies: &mut [u8],
    work_marks: &mut [u8],
) -> Ran
    requires { Ready
        (lent_all tables.now terms.now numbers.old assignment.old work_tables.old work_terms.old work_assignment.old
        work_tallies.old work_marks.old) × (count ≤ 16_384) × AtMost 1_000 from.sums }
    ensures { RunsOnce
        (lent_all tables.now terms.now numbers.old assignment.old work_tables.old
        work_terms.old work_assignment.old work_tallies.old work_marks.old)
        s count from result
        (lent_all tables.now terms.now numbers.new assignment.new work_tables.new
        work_terms.new work_assignment.new work_tallies.new work_marks.new) }
{
    let state = fill(from.state, numbers, count);
    let end = 4 * count;
    let r = search_core(
        tables,
        terms,
        &numbers[..end],
        s,
        assignment,
        work_tables,
        work_terms,
        work_assignment,
        work_tallies,
        work_marks,
    );
    let p = r.progress;
    let sums = from.sums.with(p.finds as u64, p.spent.flips as u64, p.cost);
    Ran { state, sums }
}

// The runs that are asked for.
pub fn repeat_runs(
    tables: &[u8],
    terms: &[u8],
    t: Trial,
    numbers: &mut [u8],
    assignment: &mut [u8],
    work_tables: &mut [u8],
    work_terms: &mut [u8],
    work_assignment: &mut [u8],
    work_tallies: &mut [u8],
    work_marks: &mut [u8],
) -> Sums
    requires { Ready
        (lent_all tables.now terms.now numbers.old assignment.old work_tables.old work_terms.old work_assignment.old
        work_tallies.old work_marks.old) × (t.runs ≤ 1_000) × (t.count ≤ 16_384) }
    ensures { Repeats
        (lent_all tables.now terms.now numbers.old assignment.old work_tables.old
        work_terms.old work_assignment.old work_tallies.old work_marks.old)
        t.settings t.count t.runs t.state result
        (lent_all tables.now terms.now numbers.new assignment.new work_tables.new
        work_terms.new work_assignment.new work_tallies.new work_marks.new) }
{
    let mut ran = Ran {
        state: t.state,
        sums: Sums {
            found: 0,
            flips: 0,
            cost: 0,
        },
    };
    for _run in 0..t.runs {
        ran = run_once(
            tables,
            terms,
            ran,
            t.count as usize,
            t.settings,
            numbers,
            assignment,
            work_tables,
            work_terms,
            work_assignment,
            work_tallies,
            work_marks,
        );
    }
    ran.sums
}
