// One call of the walk (Algorithm 1): tries, each with its start and its flips.
// The buffers to write come one by one: one is read while another is written, which a struct of them would not let be proved.
// So do the numbers, what is spent of them and the settings: each turn goes on from what the one before it has spent.
#![tactic(auto)]

ghost use Rattle.std.specs.Prelude.{◌≡◌, [], ◌+◌, ◌/◌, ◌≤◌, length};
ghost use Rattle.plpb.specs.Search.{flipping, try, call as called};
ghost use Rattle.recount.specs.Plans.{plan};
ghost use Rattle.settings.specs.Settings.{settings_of};
ghost use Rattle.tries.specs.Steps.{Startable, Tries, stopped_at};
ghost use Rattle.moves.specs.Moves.{Prepared, Walking, try_in};
ghost use Rattle.stamps.specs.Stamps.{Stamped};
ghost use Rattle.lending.specs.Work.{work};

use keeping::open_kept;
use locks::hold_locks;
use moves::{Stop, Unmoved, make_move};
use numbers::start;
use preparing::prepare;
use recount::tables::Tables;
use settings::Settings;
use stamps::clear_stamps;
use words::{index, word};

// How many numbers are used and flips made. The flips are no more than the numbers, and these no more than the list has. The list is the caller's, so that the
// second stands in the contracts; a Spent that kept the first alone would ask for its proof wherever one is made, also where `stopped` makes it of any two.
#[derive(Clone, Copy, Debug, PartialEq, Eq)]
pub struct Spent {
    pub used: usize,
    pub flips: usize,
}

// Why a try or a call reached no assignment, with what is spent then.
pub type Unreached = Stop<Spent>;

// How a try ends where no flip was made: it fails where the clause has no variable to choose, and else too few numbers were left. A `map` over a closure would
// carry the two reasons on; its clause would be told of the closure, here it is told of the two arms.
fn stopped(why: Unmoved, flips: usize) -> Unreached
    ensures { result ≡ stopped_at why flips }
{
    match why {
        Stop::Failed(used) => Stop::Failed(Spent { used, flips }),
        Stop::Short(used) => Stop::Short(Spent { used, flips }),
    }
}

// "for each of the allowed flips: if no clause is unsatisfied, return; .. flip". No variable is stamped at first.
fn make_flips(
    t: &Tables<'_>,
    numbers: &[u8],
    begun: Spent,
    s: Settings,
    assignment: &mut [u8],
    tallies: &mut [u8],
    marks: &mut [u8],
) -> Result<Spent, Unreached>
    requires { Walking t.now.tables.now t.now.terms.now (work assignment.old tallies.old marks.old) × (begun.used ≤ length numbers.now / 4)
        × (begun.flips ≤ begun.used) × Stamped (plan t.now).variables [] marks.old }
    ensures { Tries
        (flipping (settings_of s) (plan t.now) s.flips
        (try_in t.now.tables.now t.now.terms.now [] (work assignment.old tallies.old marks.old)))
        t.now.tables.now t.now.terms.now numbers.now begun.used begun.flips begun.used result
        (work assignment.old tallies.old marks.old)
        (work assignment.new tallies.new marks.new) }
{
    let mut spent = begun;
    for turn in 0..s.flips {
        if word(tallies, format::UNSATISFIED) == 0 {
            return Ok(spent);
        }
        // A `?` would need the reason turned by a closure before it, which says no more than the second arm.
        match make_move(t, numbers, spent.used, s, turn, assignment, tallies, marks) {
            Ok(used) => {
                spent = Spent {
                    used,
                    flips: spent.flips + 1,
                };
            }
            Err(why) => return Err(stopped(why, spent.flips)),
        }
    }
    Err(Stop::Failed(spent))
}

// One try: its start, in which locked variables take their value, the tallies of that, no flip of any variable yet, its flips.
fn try_once(
    t: &Tables<'_>,
    numbers: &[u8],
    begun: Spent,
    s: Settings,
    assignment: &mut [u8],
    tallies: &mut [u8],
    marks: &mut [u8],
) -> Result<Spent, Unreached>
    requires { Startable t.now.tables.now t.now.terms.now (work assignment.old tallies.old marks.old) × (begun.used ≤ length numbers.now / 4)
        × (begun.flips ≤ begun.used) × Prepared t.now.tables.now t.now.terms.now (work assignment.old tallies.old marks.old) }
    ensures { Tries (try (settings_of s) (plan t.now)) t.now.tables.now t.now.terms.now
        numbers.now begun.used begun.flips (begun.used + 1) result (work assignment.old tallies.old marks.old)
        (work assignment.new tallies.new marks.new) }
{
    let n = index(t.tables, 0);
    let Ok(used) = start(numbers, begun.used, n, assignment) else {
        return Err(Stop::Short(begun));
    };
    hold_locks(t.tables, n, assignment);
    open_kept(t, assignment, tallies);
    clear_stamps(marks);
    let flips = begun.flips;
    make_flips(
        t,
        numbers,
        Spent { used, flips },
        s,
        assignment,
        tallies,
        marks,
    )
}

// Tries until one reaches an assignment that satisfies the plan. Of the three ways that a try ends only a failure goes on.
fn make_tries(
    t: &Tables<'_>,
    numbers: &[u8],
    begun: Spent,
    s: Settings,
    assignment: &mut [u8],
    tallies: &mut [u8],
    marks: &mut [u8],
) -> Result<Spent, Unreached>
    requires { Startable t.now.tables.now t.now.terms.now (work assignment.old tallies.old marks.old) × (begun.used ≤ length numbers.now / 4)
        × (begun.flips ≤ begun.used) × Prepared t.now.tables.now t.now.terms.now (work assignment.old tallies.old marks.old) }
    ensures { Tries (called (settings_of s) (plan t.now)) t.now.tables.now t.now.terms.now
        numbers.now begun.used begun.flips (begun.used + 1) result (work assignment.old tallies.old marks.old)
        (work assignment.new tallies.new marks.new) }
{
    let mut spent = begun;
    for _try in 0..s.tries {
        match try_once(t, numbers, spent, s, assignment, tallies, marks) {
            Ok(found) => return Ok(found),
            Err(Stop::Short(gone)) => return Err(Stop::Short(gone)),
            Err(Stop::Failed(after)) => spent = after,
        }
    }
    Err(Stop::Failed(spent))
}

// One call. What is kept of the plan is worked out at its beginning, because the tables may have another last clause than at the call before.
pub fn call(
    t: &Tables<'_>,
    numbers: &[u8],
    begun: Spent,
    s: Settings,
    assignment: &mut [u8],
    tallies: &mut [u8],
    marks: &mut [u8],
) -> Result<Spent, Unreached>
    requires { Startable t.now.tables.now t.now.terms.now (work assignment.old tallies.old marks.old) × (begun.used ≤ length numbers.now / 4)
        × (begun.flips ≤ begun.used) }
    ensures { Tries (called (settings_of s) (plan t.now)) t.now.tables.now t.now.terms.now
        numbers.now begun.used begun.flips (begun.used + 1) result (work assignment.old tallies.old marks.old)
        (work assignment.new tallies.new marks.new) }
{
    prepare(t, tallies, marks);
    make_tries(t, numbers, begun, s, assignment, tallies, marks)
}
