// The tightening (paper 000): calls with the added last clause O ≤ m, each find below the one before it.
// The buffers to write come one by one: one is read while another is written, which a struct of them would not let be proved.
// Why numbers and settings stay two stands at the top of `walk`.
#![tactic(auto)]

ghost use Rattle.std.specs.Prelude.{◌≡◌, ◌≤◌};
ghost use Rattle.plpb.specs.Plan.{floor_cost};
ghost use Rattle.settings.specs.Settings.{settings_of};
ghost use Rattle.lending.specs.Work.{work};
ghost use Rattle.progress.specs.Bounds.{basis, Room, Tracks, Tightens};

use descent::descend;
use moves::Stop;
use progress::{Progress, Searched, stopped};
use settings::{Settings, Tightening};

// From a first find on: linear ends at its first failure, LBS "at the first failure goes over to linear". Why the mode stays any number until it is asked here
// stands at `progress::bound_for`.
pub fn tighten(
    tables: &mut [u8],
    terms: &[u8],
    numbers: &[u8],
    s: Settings,
    floor: i64,
    from: Progress,
    assignment: &mut [u8],
    tried: &mut [u8],
    tallies: &mut [u8],
    marks: &mut [u8],
) -> Searched
    requires { Room (basis tables.old terms.now) tables.old terms.now assignment.old (work tried.old tallies.old marks.old)
        × Tracks (basis tables.old terms.now) numbers.now assignment.old from × (floor ≡ floor_cost (basis tables.old terms.now)) }
    ensures { Tightens (settings_of s) tables.old terms.now numbers.now from result tables.new
        assignment.old assignment.new
        (work tried.old tallies.old marks.old)
        (work tried.new tallies.new marks.new) }
{
    let first = descend(
        tables, terms, numbers, s, s.mode, floor, from, assignment, tried, tallies, marks,
    );
    if Tightening::from(s.mode) == Tightening::Linear {
        return stopped(first);
    }
    // A `let .. else` would make one case of the two other ends, while the proof asks which of the two it is.
    let at = match first {
        Ok(_) => return stopped(first),
        Err(Stop::Short(_)) => return stopped(first),
        Err(Stop::Failed(at)) => at,
    };
    // 0 is the mode of linear, as `descend` takes any number.
    let second = descend(
        tables, terms, numbers, s, 0, floor, at, assignment, tried, tallies, marks,
    );
    stopped(second)
}
