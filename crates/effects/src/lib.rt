// What a flip does at one place of the variable's run, told by the walk's columns in constant time: no term of the rule is read. The terms' table is lent only
// so that the contracts can speak of it.
#![tactic(auto)]

mod footing;
mod hint;
mod run;

ghost use Rattle.std.specs.Prelude.{◌≡◌, cond, ◌+◌, ◌*◌, ◌≤◌, length};
ghost use Rattle.plpb.specs.Plan.{rule_holds};
ghost use Rattle.plpb.specs.Normal.{literal, literal_true};
ghost use Rattle.counting.specs.Bound.{bound_of};
ghost use Rattle.words.specs.Words.{word_at};
ghost use Rattle.order.specs.Order.{term_at, has_several};
ghost use Rattle.order.specs.Breaks.{spoils_part, false_after};
ghost use Rattle.rules.specs.Places.{standing_in};
ghost use Rattle.rules.specs.State.{StateOf};
ghost use Rattle.columns.specs.Layout.{kept_size};
ghost use Rattle.effects.specs.Kept.{size_in, Countable, Told, stands_on};
ghost use Rattle.effects.specs.Run.{plan, bits, Inside, place, rule, clause};

use columns::{NEEDS, NEVER, WEIGHTS};
pub use footing::Footing;
use format::ORDER;
use needs::read_rule;
use places::{SEVERAL, clause_in, rule_in};
use rules::place::Stands;
use rules::state::State;
pub use run::Run;
use words::word;

// The size that a word tells: NEVER, 2^32 - 1, is none.
fn size_in(w: u32) -> Option<u64>
    ensures { bound_of result ≡ size_in w }
{
    (w != NEVER).then_some(u64::from(w))
}

// The state of rule r by its words: K, A, B and P.
pub fn told(tallies: &[u8], r: usize, stands: Stands) -> State
    requires { Countable (word_at tallies.now) r × (kept_size ≤ length tallies.now) }
    ensures { Told (word_at tallies.now) r stands result }
{
    let k = read_rule(tallies, r);
    State {
        n: k.n,
        p: k.p,
        stands,
        a: size_in(k.a),
        b: size_in(k.b),
    }
}

// How a variable stands on a side of a rule, with its weight.
fn stands_on(side: usize, weight: u32) -> Stands
    ensures { standing_in result ≡ stands_on side weight }
{
    if side % 2 == 1 {
        Stands::On(weight)
    } else {
        Stands::Off(weight)
    }
}

// Which place is asked is a number beside the run: the loops step it, and `run.spoils_at(k)` says in one call what a struct of both, built anew at each step,
// would say in two.
impl Run<'_, '_> {
    // The side of a rule that place k is on: 2r + 1 for a true literal of rule r, 2r for a false one. The word's lowest bit is the sign. A side stays one
    // number: it is the index of its word in the column NEEDS, and its lowest bit is asked in `stands_on` alone.
    fn side_at(&self, k: usize) -> usize
        requires { Inside self.now k }
        ensures { result
            ≡ 2 * (place self.now k).rule + cond (literal_true (bits self.now) (literal (term_at (plan self.now) (place self.now k)))) 1 0 }
    {
        let o = word(self.footing.tables, ORDER + k);
        let v = u32::from(self.footing.assignment[self.x - 1]);
        2 * rule_in(o) + ((o % 2 + v) % 2) as usize
    }

    // Whether the flip spoils a part of the rule at place k: its side needs no more than the term weighs.
    pub fn spoils_at(&self, k: usize) -> bool
        requires { Inside self.now k }
        ensures { result ≡ spoils_part (bits self.now) self.now.x (rule self.now k) }
    {
        word(self.footing.tallies, NEEDS + self.side_at(k)) <= word(self.marks, WEIGHTS + k)
    }

    // The state of the rule at place k, seen from the variable.
    pub fn state_at(&self, k: usize) -> State
        requires { Inside self.now k }
        ensures { StateOf (bits self.now) self.now.x (rule self.now k) result }
    {
        let side = self.side_at(k);
        told(
            self.footing.tallies,
            side / 2,
            stands_on(side, word(self.marks, WEIGHTS + k)),
        )
    }

    // Whether the rule at place k holds.
    pub fn holds_at(&self, k: usize) -> bool
        requires { Inside self.now k }
        ensures { result ≡ rule_holds (bits self.now) (rule self.now k) }
    {
        self.state_at(k).holds()
    }

    // Whether some part of the rule at place k is false after the flip, so that it does not hold then.
    pub fn fails_at(&self, k: usize) -> bool
        requires { Inside self.now k }
        ensures { result ≡ false_after (bits self.now) self.now.x (rule self.now k) }
    {
        let after = self.state_at(k).flipped();
        !after.holds()
    }

    // The clause of place k.
    pub fn clause_at(&self, k: usize) -> usize
        requires { Inside self.now k }
        ensures { result ≡ (place self.now k).clause }
    {
        clause_in(word(self.footing.tables, ORDER + k))
    }

    // Whether the clause of place k has several rules. The words of places in such clauses are those from `SEVERAL` on.
    pub fn has_several(&self, k: usize) -> bool
        requires { Inside self.now k }
        ensures { result ≡ has_several (clause self.now k) }
    {
        SEVERAL <= word(self.footing.tables, ORDER + k)
    }
}
