// Whether tallies are those that opening would write: one pass over the tables, and nothing is written.
#![tactic(auto)]

ghost use Rattle.std.specs.Prelude.{◌≡◌, ◌+◌, ◌*◌, ◌≤◌, ◌<◌, length, take};
ghost use Rattle.plpb.specs.Tallies.{fresh_count};
ghost use Rattle.words.specs.Words.{word_at, Below};
ghost use Rattle.format.specs.Tables.{same_bytes};
ghost use Rattle.rules.specs.Terms.{bits_in};
ghost use Rattle.tallies.specs.Layout.{tally_size, bits_of, tally_bytes};
ghost use Rattle.words.specs.Tests.{Decides};
ghost use Rattle.recount.specs.Core.{ClauseCounted, Unused};
ghost use Rattle.recount.specs.Plans.{plan};
ghost use Rattle.fresh.specs.Found.{FoundAt};

use recount::clause::rules_of;
use recount::lent::Lent;
use recount::recount::bit;
use recount::tables::Tables;
use words::{index, word, zeros};

// Tallies beside what is lent.
#[derive(Drop)]
struct Tallied<'a, 'b> {
    lent: Lent<'a>,
    tallies: &'b [u8],
    ghost room: { tally_size ≤ length tallies.now },
    ghost bytes: { Below 256 tallies.now },
}

impl Tallied<'_, '_> {
    // Whether a rule holds, if the word that stands for it is its P.
    fn check_rule(&self, r: usize) -> Option<bool>
        requires { r < word_at self.now.lent.plan.tables.now 2 }
        ensures { FoundAt self.now.lent.plan.tables.now self.now.lent.plan.terms.now self.now.lent.bits.now self.now.tallies.now r result }
    {
        let s = self.lent.state(r);
        (word(self.tallies, r) == s.p).then_some(s.holds())
    }

    // Whether the words of a clause are right: those of its rules and its count. The loop goes from one end to the other and not over
    // the range, so that the rule's number is its own variable, of which the invariant speaks (see `recount::clause::rules_of`).
    fn clause_fresh(&self, c: usize) -> bool
        requires { c < word_at self.now.lent.plan.tables.now 1 }
        ensures { Decides result
            (ClauseCounted self.now.lent.plan.tables.now self.now.lent.plan.terms.now self.now.lent.bits.now c self.now.tallies.now self.now.tallies.now) }
    {
        let rules = rules_of(self.lent.plan.tables, c);
        let mut holding: u32 = 0;
        for r in rules.start..rules.end {
            let Some(holds) = self.check_rule(r) else {
                return false;
            };
            holding += bit(holds);
        }
        word(self.tallies, format::HOLDING + c) == holding
    }

    // Whether the words of all clauses and the total are right: then all words are, where unused entries are 0.
    fn clauses_fresh(&self) -> bool
        requires { Unused (plan self.now.lent.plan) self.now.tallies.now }
        ensures { Decides result
            (take tally_size self.now.tallies.now ≡ tally_bytes (fresh_count (plan self.now.lent.plan) (bits_in self.now.lent.bits.now))) }
    {
        let clauses = index(self.lent.plan.tables, 1);
        let mut unsatisfied: u32 = 0;
        for c in 0..clauses {
            if !self.clause_fresh(c) {
                return false;
            }
            unsatisfied += bit(word(self.tallies, format::HOLDING + c) == 0);
        }
        word(self.tallies, format::UNSATISFIED) == unsatisfied
    }
}

// Whether the tallies are those of the assignment. Unused entries are looked at first: it costs least.
pub fn fresh(t: &Tables<'_>, assignment: &[u8], tallies: &[u8]) -> bool
    requires { ((plan t.now).variables ≤ length assignment.now) × (tally_size ≤ length tallies.now) }
    ensures { result
        ≡ same_bytes (take tally_size tallies.now)
        (tally_bytes (fresh_count (plan t.now) (bits_of (plan t.now).variables assignment.now))) }
{
    let clauses = index(t.tables, 1);
    let rules = index(t.tables, 2);
    if !zeros(tallies, rules, format::HOLDING) {
        return false;
    }
    if !zeros(tallies, format::HOLDING + clauses, format::UNSATISFIED) {
        return false;
    }
    let lent = Lent::of(*t, assignment);
    let tallied = Tallied { lent, tallies };
    tallied.clauses_fresh()
}
