// Whether a flip breaks nothing, told along the variable's run. Where it broke something the last time is looked at first. A hint that names a place may be
// any word, for what stands there is tested as any other place; one that tells a side is that of a place of the run.
#![tactic(auto)]

ghost use Rattle.std.specs.Prelude.{◌≡◌, true, false, cond, not, None, Some, ◌<◌, ltb, eqb, is_some, IfSome};
ghost use Rattle.plpb.specs.Equations.{clause_break};
ghost use Rattle.plpb.specs.Count.{capped_break};
ghost use Rattle.words.specs.Words.{word_at};
ghost use Rattle.words.specs.Writes.{Wrote};
ghost use Rattle.columns.specs.Layout.{hint_at};
ghost use Rattle.columns.specs.Columns.{Tells};
ghost use Rattle.effects.specs.Footing.{plan_on, bits_on, HasRun};
ghost use Rattle.effects.specs.Run.{plan, bits, clause, Inside};
ghost use Rattle.groups.specs.Run.{end_of_group, Begins};

use columns::{HINTS, SIDE_HINTS};
use effects::{Footing, Run};
use groups::Group;
use words::{narrow, word, write_word};

// Where the group that begins at place k ends, unless its clause breaks. A clause of one rule has one place, and one compare tells of it. Why it shares no
// function with `spoiling::count_at` stands there.
fn passed(run: &Run<'_, '_>, k: usize) -> Option<usize>
    requires { Begins run.now k }
    ensures { result
        ≡ cond (ltb 0 (clause_break (bits run.now) run.now.x (clause run.now k))) None (Some (end_of_group run.now k)) }
{
    if !run.has_several(k) {
        if run.spoils_at(k) {
            return None;
        }
        return Some(k + 1);
    }
    let group = Group::at(run, k);
    if group.breaks() {
        return None;
    }
    Some(group.end)
}

// The first place of the run whose group breaks its clause. The place goes from group to group, as far as each is long, so that no `for` counts it.
fn next_break(run: &Run<'_, '_>) -> Option<usize>
    ensures inside { IfSome result (λ k. Inside run.now k) }
    ensures found { is_some result ≡ not (eqb (capped_break (plan run.now) (bits run.now) run.now.x) 0) }
{
    let mut k = run.first;
    while k < run.end {
        let Some(j) = passed(run, k) else {
            return Some(k);
        };
        k = j;
    }
    None
}

// Whether a group begins at place k: the place before it, if that is one of the run, is of another clause.
fn begins_at(run: &Run<'_, '_>, k: usize) -> bool
    requires { Inside run.now k }
    ensures { result ≡ true → Begins run.now k }
{
    if k == run.first {
        return true;
    }
    run.clause_at(k - 1) != run.clause_at(k)
}

// Whether place k is one of the run where a group begins whose clause the flip breaks.
fn group_breaks(run: &Run<'_, '_>, k: usize) -> bool
    ensures { result ≡ true → eqb (capped_break (plan run.now) (bits run.now) run.now.x) 0 ≡ false }
{
    if !(run.first..run.end).contains(&k) {
        return false;
    }
    if !begins_at(run, k) {
        return false;
    }
    Group::at(run, k).breaks()
}

// Whether the flip of x breaks something where its hint says: on the side that it tells, or at the place that it names, if that is one of the run.
// It is put into its callers, as is `is_free`: of most variables of a long clause no more is asked.
#[inline(always)]
fn hint_breaks(footing: &Footing<'_>, marks: &[u8], x: usize) -> bool
    requires { HasRun footing.now marks.now x }
    ensures { result ≡ true → eqb (capped_break (plan_on footing.now) (bits_on footing.now) x) 0 ≡ false }
{
    let hint = word(marks, HINTS + x);
    if hint < SIDE_HINTS {
        return group_breaks(&Run::of(footing, marks, x), hint as usize);
    }
    footing.hint_spoils(marks, x)
}

// The hint of place k: it tells the side in a clause of one rule, and it names the place in others.
fn hint_for(run: &Run<'_, '_>, k: usize) -> u32
    requires { Inside run.now k }
    ensures { Tells (plan run.now) run.now.x result }
{
    if run.has_several(k) {
        narrow(k)
    } else {
        run.hint_at(k)
    }
}

// Looks along the run for a place where the flip of x breaks something, and leaves it as the hint. What is handed in is no `Run`: a run lends the marks to be
// read, and the hint is written behind it.
fn runs_free(footing: &Footing<'_>, marks: &mut [u8], x: usize) -> bool
    requires { HasRun footing.now marks.old x }
    ensures { (result ≡ eqb (capped_break (plan_on footing.now) (bits_on footing.now) x) 0)
        × Wrote (hint_at x) (word_at marks.new (hint_at x)) marks.old marks.new
        × Tells (plan_on footing.now) x (word_at marks.new (hint_at x)) }
{
    let run = Run::of(footing, marks, x);
    let Some(k) = next_break(&run) else {
        return true;
    };
    let hint = hint_for(&run, k);
    write_word(marks, HINTS + x, hint);
    false
}

// Whether the flip of x breaks nothing. Of the marks only the variable's hint may change.
#[inline(always)]
pub fn is_free(footing: &Footing<'_>, marks: &mut [u8], x: usize) -> bool
    requires { HasRun footing.now marks.old x }
    ensures { (result ≡ eqb (capped_break (plan_on footing.now) (bits_on footing.now) x) 0)
        × Wrote (hint_at x) (word_at marks.new (hint_at x)) marks.old marks.new
        × Tells (plan_on footing.now) x (word_at marks.new (hint_at x)) }
{
    if hint_breaks(footing, marks, x) {
        return false;
    }
    runs_free(footing, marks, x)
}
