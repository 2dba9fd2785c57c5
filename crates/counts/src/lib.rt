// How many clauses of the expansion a flip mends, along the variable's run.
#![tactic(auto)]

ghost use Rattle.std.specs.Prelude.{◌≡◌, ◌≤◌, eqb};
ghost use Rattle.plpb.specs.Count.{capped, capped_make};
ghost use Rattle.plpb.specs.Equations.{clause_make};
ghost use Rattle.counting.specs.Count.{number};
ghost use Rattle.effects.specs.Run.{plan, bits, Inside};
ghost use Rattle.groups.specs.Group.{bits as bits_of, clause as clause_of};
ghost use Rattle.joining.specs.Merging.{Placed};
ghost use Rattle.spoiling.specs.Along.{Starts, Stepped};
ghost use Rattle.counts.specs.Met.{held, PastMet};

use counting::count::Count;
use effects::Run;
use format::HOLDING;
use groups::Group;
use joining::make_along;
use mending::{group_mends, mended};
use spoiling::Step;
use words::word;

// What the flip mends of the group's clause. The shares of its rules are worked out only where it may mend something.
fn clause_mended(group: &Group<'_>) -> Count
    requires { Placed group.now }
    ensures { number result ≡ capped (clause_make (bits_of group.now) group.now.run.now.x (clause_of group.now)) }
{
    if !group_mends(group) {
        return Count::ZERO;
    }
    make_along(group)
}

// What the clause of the group at place k counts: one of one rule by its place, one of several by its group. `spoiling::count_at` does the same for the break
// count.
fn count_at(run: &Run<'_, '_>, k: usize) -> Step
    requires { Starts run.now k }
    ensures { Stepped (clause_make (bits run.now) run.now.x) run.now k result }
{
    if !run.has_several(k) {
        return Step {
            count: mended(run.state_at(k)),
            next: k + 1,
        };
    }
    let group = Group::at(run, k);
    Step {
        count: clause_mended(&group),
        next: group.end,
    }
}

// Whether no rule holds of the clause of place k.
fn unmet_at(run: &Run<'_, '_>, k: usize) -> bool
    requires { Inside run.now k }
    ensures { result ≡ eqb (held run.now k) 0 }
{
    word(run.footing.tallies, HOLDING + run.clause_at(k)) == 0
}

// The first place from k on of a clause that is not met, or the end of the run. The flip mends nothing of one that is met, and most are: each of its places is
// passed by itself, and no group is looked at.
fn past_met(run: &Run<'_, '_>, k: usize) -> usize
    requires { (run.now.first ≤ k) × (k ≤ run.now.end) }
    ensures { PastMet run.now k result }
{
    (k..run.end).find(|&j| unmet_at(run, j)).unwrap_or(run.end)
}

// The make count of the variable. The place goes from group to group, as far as each is long, so that no `for` counts it.
pub fn make_of(run: &Run<'_, '_>) -> Count
    ensures { number result ≡ capped_make (plan run.now) (bits run.now) run.now.x }
{
    let mut sum = Count::ZERO;
    let mut k = past_met(run, run.first);
    while k < run.end {
        let t = count_at(run, k);
        sum = sum + t.count;
        k = past_met(run, t.next);
    }
    sum
}
