// How many clauses of the expansion a flip spoils, along the variable's run: given up above a limit, and once the sum is cut.
#![tactic(auto)]

ghost use Rattle.std.specs.Prelude.{◌≡◌, true, suc, ◌<◌};
ghost use Rattle.plpb.specs.Count.{cap, capped, capped_break};
ghost use Rattle.plpb.specs.Equations.{clause_break};
ghost use Rattle.counting.specs.Count.{number};
ghost use Rattle.rules.specs.State.{Balanced, shares_from};
ghost use Rattle.effects.specs.Footing.{plan_on, bits_on, HasRun};
ghost use Rattle.effects.specs.Run.{plan, bits, Inside};
ghost use Rattle.spoiling.specs.Along.{Starts, Stepped, UpTo};

use columns::{HINTS, SIDE_HINTS};
use counting::bound::{over_difference, over_surely_past};
use counting::count::Count;
use effects::{Footing, Run};
use groups::Group;
use joining::break_along;
use rules::place::Stands;
use rules::state::State;
use words::word;

// e of a rule in this state: equation (10). It is put into its callers: as a call it makes a search of short clauses
// take a tenth more instructions. Why 32 bits are widened by `as` here, in `mending` and in `joining` stands at `rules::State::shares`.
#[inline(always)]
pub fn spoiled(s: State) -> Count
    requires { Balanced s }
    ensures { number result ≡ capped (shares_from s).e }
{
    match s.stands {
        Stands::Out => Count::ZERO,
        Stands::On(w) => over_difference(s.n as u64, w as u64, s.a),
        Stands::Off(w) => over_difference(s.p as u64, w as u64, s.b),
    }
}

// Whether e of a rule in this state is past the cap for sure, told without a binomial. This matches as `spoiled` and `mending::mends` do, each to ask
// something else of a side: a function of the side alone would hand out its three numbers in an `Option`, which each of them would match again.
fn surely_past(s: State) -> bool
    requires { Balanced s }
    ensures { result ≡ true → cap < (shares_from s).e }
{
    match s.stands {
        Stands::Out => false,
        Stands::On(w) => over_surely_past(s.n as u64, w as u64, s.a),
        Stands::Off(w) => over_surely_past(s.p as u64, w as u64, s.b),
    }
}

// Whether place k, if it is that of a clause of one rule, shows that the whole count is cut.
fn shows_cut(run: &Run<'_, '_>, k: usize) -> bool
    requires { Inside run.now k }
    ensures { result ≡ true → suc cap ≡ capped_break (plan run.now) (bits run.now) run.now.x }
{
    if run.has_several(k) {
        return false;
    }
    surely_past(run.state_at(k))
}

// Whether the last place of the run shows it: the objective's clause is behind all others. A run of up to two places is not asked, since it is summed nearly as
// soon as its last one is looked at.
#[inline(always)]
fn cut_at_last(run: &Run<'_, '_>) -> bool
    ensures { result ≡ true → suc cap ≡ capped_break (plan run.now) (bits run.now) run.now.x }
{
    if run.end.saturating_sub(run.first) <= 2 {
        return false;
    }
    shows_cut(run, run.end - 1)
}

// Whether the side that the hint of x tells shows it, if it tells one. In a plan of long rules it often does.
#[inline(always)]
fn cut_at_hint(footing: &Footing<'_>, marks: &[u8], x: usize) -> bool
    requires { HasRun footing.now marks.now x }
    ensures { result ≡ true → suc cap ≡ capped_break (plan_on footing.now) (bits_on footing.now) x }
{
    if word(marks, HINTS + x) < SIDE_HINTS {
        return false;
    }
    surely_past(footing.hint_state(marks, x))
}

// The count that is cut, where it is no more than a limit.
fn cut_up_to(limit: u64) -> Option<u64>
    ensures { UpTo limit (suc cap) result }
{
    let cut = Count::CUT.rank();
    (cut <= limit).then_some(cut)
}

// What a group counts, and where it ends.
#[derive(Clone, Copy)]
pub struct Step {
    pub count: Count,
    pub next: usize,
}

// A clause of one rule counts nothing where the rule is not spoiled, one of several where it does not break: no binomial is worked out there.
// `freely::passed` and `counts::count_at` go on to the next group as this does, and each asks something else of a rule and of a group: one function over two
// closures would say of both what each of the three now says in a line. It is put into `sum_along`, and that into its callers: in a plan of
// short runs the calls take a tenth of a search.
#[inline(always)]
fn count_at(run: &Run<'_, '_>, k: usize) -> Step
    requires { Starts run.now k }
    ensures { Stepped (clause_break (bits run.now) run.now.x) run.now k result }
{
    if !run.has_several(k) {
        let next = k + 1;
        if !run.spoils_at(k) {
            return Step {
                count: Count::ZERO,
                next,
            };
        }
        return Step {
            count: spoiled(run.state_at(k)),
            next,
        };
    }
    let group = Group::at(run, k);
    let next = group.end;
    if !group.breaks() {
        return Step {
            count: Count::ZERO,
            next,
        };
    }
    Step {
        count: break_along(&group),
        next,
    }
}

// What the run's groups count, where it is no more than a limit. The place goes from group to group, as far as each is long, so that no `for` counts it.
// Most groups count nothing, and nothing is added there.
#[inline(always)]
fn sum_along(run: &Run<'_, '_>, limit: u64) -> Option<u64>
    ensures { UpTo limit (capped_break (plan run.now) (bits run.now) run.now.x) result }
{
    let mut sum = Count::ZERO;
    let mut k = run.first;
    while k < run.end {
        let t = count_at(run, k);
        k = t.next;
        if t.count.rank() == 0 {
            continue;
        }
        sum = sum + t.count;
        if limit < sum.rank() {
            return None;
        }
        if sum.is_cut() {
            return Some(sum.rank());
        }
    }
    Some(sum.rank())
}

// The break count of the variable where it is no more than a limit. It is put into its caller, so that in a plan of short runs no call is made.
#[inline(always)]
pub fn break_of(run: &Run<'_, '_>, limit: u64) -> Option<u64>
    ensures { UpTo limit (capped_break (plan run.now) (bits run.now) run.now.x) result }
{
    if cut_at_last(run) {
        return cut_up_to(limit);
    }
    sum_along(run, limit)
}

// The same of x, with its hint asked first, which SKC leaves where it finds that x is not free: of most variables of a long clause hint or last place tells the
// count. It is put into its caller, and says again what `break_of` does then, whose clause speaks of the run that it is handed.
#[inline(always)]
pub fn break_by_hint(footing: &Footing<'_>, marks: &[u8], x: usize, limit: u64) -> Option<u64>
    requires { HasRun footing.now marks.now x }
    ensures { UpTo limit (capped_break (plan_on footing.now) (bits_on footing.now) x) result }
{
    if cut_at_hint(footing, marks, x) {
        return cut_up_to(limit);
    }
    let run = Run::of(footing, marks, x);
    if cut_at_last(&run) {
        return cut_up_to(limit);
    }
    sum_along(&run, limit)
}
