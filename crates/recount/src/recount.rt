// The tallies of an assignment: those of all rules and clauses.
ghost use Rattle.std.specs.Prelude.{◌≡◌, cond, ◌≤◌, ◌<◌, length};
ghost use Rattle.words.specs.Words.{word_at};
ghost use Rattle.rules.specs.Terms.{bits_in};
ghost use Rattle.tallies.specs.Layout.{tally_size, with_tallies};
ghost use Rattle.rules.specs.State.{StateOf};
ghost use Rattle.recount.specs.Core.{RuleCounted, ClauseCounted, Unused};
ghost use Rattle.recount.specs.Plans.{plan, rule};

use crate::clause::rules_of;
use crate::lent::Lent;
use rules::state::{State, read_state};
use words::{index, word, write_word};

// 1 where it is so. `u32::from` says which number; that it is at most 1 is what the sums of such bits cite.
pub fn bit(b: bool) -> u32
    ensures { (result ≡ cond b 1 0) × (result ≤ 1) }
{
    u32::from(b)
}

impl Lent<'_> {
    // The state of a rule, seen from no variable.
    pub fn state(&self, r: usize) -> State
        requires { r < word_at self.now.plan.tables.now 2 }
        ensures { StateOf (bits_in self.now.bits.now) 0 (rule self.now.plan r) result }
    {
        read_state(
            self.plan.tables,
            self.plan.terms,
            self.bits,
            format::RULES + 5 * r,
        )
    }

    // P of a rule, and whether it holds.
    fn recount_rule(&self, tallies: &mut [u8], r: usize) -> bool
        requires { (tally_size ≤ length tallies.old) × (r < word_at self.now.plan.tables.now 2) }
        ensures { RuleCounted self.now.plan.tables.now self.now.plan.terms.now self.now.bits.now r result tallies.old tallies.new }
    {
        let s = self.state(r);
        write_word(tallies, r, s.p);
        s.holds()
    }

    // P of a clause's rules, and how many of them hold.
    fn recount_clause(&self, tallies: &mut [u8], c: usize)
        requires { (tally_size ≤ length tallies.old) × (c < word_at self.now.plan.tables.now 1) }
        ensures { ClauseCounted self.now.plan.tables.now self.now.plan.terms.now self.now.bits.now c tallies.old tallies.new }
    {
        let rules = rules_of(self.plan.tables, c);
        let mut holding: u32 = 0;
        for r in rules.start..rules.end {
            holding += bit(self.recount_rule(tallies, r));
        }
        write_word(tallies, format::HOLDING + c, holding);
    }

    // The tallies of all clauses, and how many of them hold no rule.
    pub fn recount(&self, tallies: &mut [u8])
        requires { (tally_size ≤ length tallies.old) × Unused (plan self.now.plan) tallies.old }
        ensures { tallies.new ≡ with_tallies (plan self.now.plan) (bits_in self.now.bits.now) tallies.old }
    {
        let clauses = index(self.plan.tables, 1);
        let mut unsatisfied: u32 = 0;
        for c in 0..clauses {
            self.recount_clause(tallies, c);
            unsatisfied += bit(word(tallies, format::HOLDING + c) == 0);
        }
        write_word(tallies, format::UNSATISFIED, unsatisfied);
    }
}
