// What becomes of a clause. Each walk over rules or clauses is a loop of its own, and a byte is compared with a tag's own number, for the reasons that the head
// of `tables::fields` gives.
ghost use Rattle.std.specs.Prelude.{◌≡◌, List, [], ℕ, Some};
ghost use Rattle.plpb.specs.Lists.{any, is_empty};
ghost use Rattle.plpb.specs.Plan.{Clause};
ghost use Rattle.squeezed.specs.Squeezed.{clauses_left};
ghost use Rattle.fates.specs.Maps.{codes};
ghost use Rattle.fates.specs.Rules.{unbounded};
ghost use Rattle.fates.specs.Rest.{Rest, Reads, Begins, Ran};

use crate::bounds::Bounds;
use crate::map::Map;
use crate::rule;
use format::Tag;

// A clause's rules run through: whether one is met by all values, whether one can be met at all, and the place behind them. The two are facts of their own,
// each asked of every rule; as an enum of a clause's three fates they would have to be folded rule by rule.
#[derive(Clone, Copy)]
pub struct Run {
    pub met: bool,
    pub kept: bool,
    pub next: usize,
}

// Whether none of a rule's bounds is left.
fn is_empty(left: Bounds) -> bool
    ensures { result ≡ unbounded (Some left) }
{
    left.lower.is_none() && left.upper.is_none()
}

// Whether all values meet a rule, by what is left of its bounds.
fn all_meet(fate: Option<Bounds>) -> bool
    ensures { result ≡ unbounded fate }
{
    fate.is_some_and(is_empty)
}

// The rules of a clause from a place on, run through to the last.
pub fn run_rules(file: &[u8], from: usize, map: Map<'_>) -> Run
    requires { Reads file.now from }
    ensures { Ran (codes map.entry) file.now from result.met result.kept result.next }
{
    let mut at = from;
    let mut met = false;
    let mut kept = false;
    while file[at] == Tag::Rule as u8 {
        let fate = rule::fate(file, at, map);
        let is_met = all_meet(fate);
        met |= is_met;
        kept |= fate.is_some();
        at = tables::fields::after(file, at);
    }
    Run {
        met,
        kept,
        next: at,
    }
}

// Whether one of the clauses from a place on lost all rules: none of its rules is met by all values, and none can be met. Both
// are known already, so that `||` would skip nothing.
pub fn lost(file: &[u8], from: usize, map: Map<'_>) -> bool
    requires { Begins file.now from }
    ensures { (n : ℕ) (cs : List Clause) → Rest n file.now from [] cs
        → result ≡ any is_empty (clauses_left (codes map.entry) cs) }
{
    let mut at = from;
    while file[at] == Tag::Clause as u8 {
        let run = run_rules(file, at + 3, map);
        if !(run.met | run.kept) {
            return true;
        }
        at = run.next;
    }
    false
}
