// Calls with the added last clause O ≤ m, each find below the one before it.
// The buffers to write come one by one: one is read while another is written, which a struct of them would not let be proved.
// Why numbers and settings stay two stands at the top of `walk`.
#![tactic(auto)]

ghost use Rattle.std.specs.Prelude.{◌≡◌, ◌≤◌, ◌<◌, nat_abs};
ghost use Rattle.plpb.specs.Plan.{floor_cost};
ghost use Rattle.format.specs.Limits.{max_bound};
ghost use Rattle.settings.specs.Settings.{settings_of, mode_of};
ghost use Rattle.lending.specs.Work.{work};
ghost use Rattle.progress.specs.Bounds.{basis, Room, Tracks, UnderBound, Descent};

use moves::Stop;
use objective::added::set_bound;
use progress::{Halt, Progress, bound_for, keep_find};
use recount::tables::Tables;
use settings::Settings;
use tries::call;

// One call with the added clause O ≤ bound, which replaces the one before. A `map` over a closure would carry the two reasons on; its clause would be told of
// the closure, here it is told of the two arms.
fn call_under(
    tables: &mut [u8],
    terms: &[u8],
    numbers: &[u8],
    s: Settings,
    bound: i64,
    at: Progress,
    assignment: &mut [u8],
    tried: &mut [u8],
    tallies: &mut [u8],
    marks: &mut [u8],
) -> Result<Progress, Halt>
    requires { Room (basis tables.old terms.now) tables.old terms.now assignment.old (work tried.old tallies.old marks.old)
        × Tracks (basis tables.old terms.now) numbers.now assignment.old at × (nat_abs bound ≤ max_bound) }
    ensures { UnderBound (settings_of s) bound tables.old terms.now numbers.now at result tables.new
        assignment.old assignment.new
        (work tried.old tallies.old marks.old)
        (work tried.new tallies.new marks.new) }
{
    set_bound(tables, bound);
    let t = Tables { tables, terms };
    match call(&t, numbers, at.spent, s, tried, tallies, marks) {
        Ok(spent) => Ok(Progress {
            cost: keep_find(tables, tried, assignment),
            finds: at.finds + 1,
            spent,
        }),
        Err(Stop::Failed(spent)) => Err(Stop::Failed(Progress { spent, ..at })),
        Err(Stop::Short(spent)) => Err(Stop::Short(Progress { spent, ..at })),
    }
}

// Calls in one mode, each below the last find, until one fails or the floor is reached. Why the mode stays any number stands at `progress::bound_for`, which
// asks what it means.
pub fn descend(
    tables: &mut [u8],
    terms: &[u8],
    numbers: &[u8],
    s: Settings,
    mode: u32,
    floor: i64,
    from: Progress,
    assignment: &mut [u8],
    tried: &mut [u8],
    tallies: &mut [u8],
    marks: &mut [u8],
) -> Result<Progress, Halt>
    requires { Room (basis tables.old terms.now) tables.old terms.now assignment.old (work tried.old tallies.old marks.old)
        × Tracks (basis tables.old terms.now) numbers.now assignment.old from × (floor ≡ floor_cost (basis tables.old terms.now)) }
    ensures { Descent (settings_of s) (mode_of mode) tables.old terms.now numbers.now from result tables.new
        assignment.old assignment.new
        (work tried.old tallies.old marks.old)
        (work tried.new tallies.new marks.new) }
{
    let mut at = from;
    while floor < at.cost {
        at = call_under(
            tables,
            terms,
            numbers,
            s,
            bound_for(mode, floor, at.cost),
            at,
            assignment,
            tried,
            tallies,
            marks,
        )?;
    }
    Ok(at)
}
