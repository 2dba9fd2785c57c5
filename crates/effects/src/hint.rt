// A variable's hint that tells a side: what a flip does there is told by it and by one word of the rule, or by the rule's state.
#![tactic(auto)]

ghost use Rattle.std.specs.Prelude.{◌≡◌, ◌+◌, ◌*◌, ◌-◌, ◌/◌, ◌≤◌, cond};
ghost use Rattle.plpb.specs.Normal.{literal, literal_true, size};
ghost use Rattle.words.specs.Words.{word_at};
ghost use Rattle.order.specs.Order.{rule_at, term_at};
ghost use Rattle.order.specs.Breaks.{spoils_part};
ghost use Rattle.rules.specs.State.{StateOf};
ghost use Rattle.columns.specs.Layout.{hint_at, side_hints};
ghost use Rattle.columns.specs.Columns.{AtSingle, hint_of};
ghost use Rattle.effects.specs.Footing.{plan_on, bits_on, HasRun};
ghost use Rattle.effects.specs.Run.{plan, Inside, place};

use crate::footing::Footing;
use crate::run::Run;
use crate::{stands_on, told};
use columns::{HINTS, NEEDS, WEIGHTS};
use format::ORDER;
use places::{CLAUSE, rule_in};
use rules::state::State;
use words::word;

// The weight stands in a hint with 2 more, so that each hint that tells a side is above those that name places.
fn weight_told(hint: u32) -> u32
    requires { side_hints ≤ hint }
    ensures { result ≡ hint / 4_096 - 2 }
{
    hint / CLAUSE - 2
}

impl Footing<'_> {
    // The side that the hint of x tells: 2r + 1 for a true literal of rule r, 2r for a false one, as `Run::side_at` has it of a place.
    fn side_told(&self, marks: &[u8], x: usize) -> usize
        requires { HasRun self.now marks.now x × (side_hints ≤ word_at marks.now (hint_at x)) }
        ensures { AtSingle (plan_on self.now) x
            (λ q. result ≡ 2 * q.rule + cond (literal_true (bits_on self.now) (literal (term_at (plan_on self.now) q))) 1 0
            × word_at marks.now (hint_at x) / 4_096 - 2 ≡ size (term_at (plan_on self.now) q)) }
    {
        let hint = word(marks, HINTS + x);
        let v = u32::from(self.assignment[x - 1]);
        2 * rule_in(hint) + ((hint % 2 + v) % 2) as usize
    }

    // Whether the flip of x spoils a part of the rule there.
    pub fn hint_spoils(&self, marks: &[u8], x: usize) -> bool
        requires { HasRun self.now marks.now x × (side_hints ≤ word_at marks.now (hint_at x)) }
        ensures { AtSingle (plan_on self.now) x (λ q. result ≡ spoils_part (bits_on self.now) x (rule_at (plan_on self.now) q.rule)) }
    {
        let weight = weight_told(word(marks, HINTS + x));
        word(self.tallies, NEEDS + self.side_told(marks, x)) <= weight
    }

    // The state of the rule there, seen from x.
    pub fn hint_state(&self, marks: &[u8], x: usize) -> State
        requires { HasRun self.now marks.now x × (side_hints ≤ word_at marks.now (hint_at x)) }
        ensures { AtSingle (plan_on self.now) x (λ q. StateOf (bits_on self.now) x (rule_at (plan_on self.now) q.rule) result) }
    {
        let side = self.side_told(marks, x);
        let weight = weight_told(word(marks, HINTS + x));
        told(self.tallies, side / 2, stands_on(side, weight))
    }
}

impl Run<'_, '_> {
    // The hint that tells the side of place k.
    pub fn hint_at(&self, k: usize) -> u32
        requires { Inside self.now k }
        ensures { result ≡ hint_of (plan self.now) (place self.now k) }
    {
        let weight = word(self.marks, WEIGHTS + k);
        CLAUSE * (weight + 2) + word(self.footing.tables, ORDER + k) % CLAUSE
    }
}
