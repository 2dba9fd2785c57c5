// Counts: how many clauses of the expansion a variable's flip would spoil, and how many it would mend.
#![tactic(auto)]

ghost use Rattle.std.specs.Prelude.{◌≡◌, ◌+◌, ◌*◌, ◌≤◌, ◌<◌, eqb, length};
ghost use Rattle.plpb.specs.Lists.{◌and◌};
ghost use Rattle.plpb.specs.Count.{capped, capped_break, capped_make};
ghost use Rattle.plpb.specs.Equations.{shares_of, clause_break, clause_make, break_sum, make_sum};
ghost use Rattle.counting.specs.Count.{number};
ghost use Rattle.counting.specs.Shares.{shares_in, capped_shares, start_shares, joined_shares, joined_along};
ghost use Rattle.words.specs.Words.{word_at};
ghost use Rattle.rules.specs.Terms.{bits_in};
ghost use Rattle.tallies.specs.Layout.{bits_of};
ghost use Rattle.recount.specs.Plans.{plan, rule, clause};
ghost use Rattle.exact.specs.Counted.{CountsAre};

use counting::count::Count;
use counting::shares::Shares;
use recount::clause::rules_of;
use recount::lent::Lent;
use recount::tables::Tables;
use rules::state::read_state_from;
use std::ops::Add;
use words::index;

// How many clauses a flip spoils, and how many it mends.
#[derive(Clone, Copy)]
pub struct Counts {
    pub breaks: Count,
    pub makes: Count,
}

impl Counts {
    pub const NONE: Counts = Counts {
        breaks: Count::ZERO,
        makes: Count::ZERO,
    };
}

impl Add for Counts {
    type Output = Counts;

    ghost add_gives = { λ a b c. CountsAre (capped (number a.breaks + number b.breaks)) (capped (number a.makes + number b.makes)) c };

    fn add(self, other: Counts) -> Counts {
        Counts {
            breaks: self.breaks + other.breaks,
            makes: self.makes + other.makes,
        }
    }
}

// Whether no part is spoiled, mended or left unsatisfied: then one of the rules so far holds before the flip and one after it, and no rule behind them changes
// that.
fn settled(shares: Shares) -> bool
    ensures { result ≡ (eqb (number shares.e) 0 and eqb (number shares.f) 0 and eqb (number shares.g) 0) }
{
    (shares.e.rank() == 0) & (shares.f.rank() == 0) & (shares.g.rank() == 0)
}

// What is lent, and the variable that is asked about.
#[derive(Drop)]
struct Asked<'a> {
    lent: Lent<'a>,
    x: u32,
}

impl Asked<'_> {
    // The shares of the rules so far joined with those of one more.
    fn join_rule(&self, shares: Shares, r: usize) -> Shares
        requires { r < word_at self.now.lent.plan.tables.now 2 }
        ensures { shares_in result
            ≡ capped_shares
            (joined_shares (shares_in shares) (capped_shares (shares_of (bits_in self.now.lent.bits.now) self.now.x (rule self.now.lent.plan r)))) }
    {
        let s = read_state_from(
            self.lent.plan.tables,
            self.lent.plan.terms,
            self.lent.bits,
            format::RULES + 5 * r,
            self.x,
        );
        s.join(shares)
    }

    // The shares of all rules of a clause. It stops where they are settled: most long clauses have a rule that holds whatever the variable does. The loop
    // goes from one end to the other and not over the range, so that the rule's number is its own variable, of which the invariant speaks (see
    // `recount::clause::rules_of`).
    fn clause_shares(&self, c: usize) -> Shares
        requires { c < word_at self.now.lent.plan.tables.now 1 }
        ensures { shares_in result
            ≡ capped_shares (joined_along (shares_of (bits_in self.now.lent.bits.now) self.now.x) start_shares (clause self.now.lent.plan c)) }
    {
        let rules = rules_of(self.lent.plan.tables, c);
        let mut shares = Shares::START;
        for r in rules.start..rules.end {
            shares = self.join_rule(shares, r);
            if settled(shares) {
                return shares;
            }
        }
        shares
    }

    // What a flip spoils and mends of a clause: nothing where the clause does not name the variable, so no binomial is worked out there.
    fn clause_counts(&self, c: usize) -> Counts
        requires { c < word_at self.now.lent.plan.tables.now 1 }
        ensures { CountsAre
            (capped (clause_break (bits_in self.now.lent.bits.now) self.now.x (clause self.now.lent.plan c)))
            (capped (clause_make (bits_in self.now.lent.bits.now) self.now.x (clause self.now.lent.plan c))) result }
    {
        if !self.lent.plan.clause_names(c, self.x) {
            return Counts::NONE;
        }
        let s = self.clause_shares(c);
        Counts {
            breaks: s.e,
            makes: s.f,
        }
    }

    // What a flip spoils and mends of the plan: the sum over the clauses.
    fn counts(&self) -> Counts
        ensures { CountsAre (capped (break_sum (plan self.now.lent.plan) (bits_in self.now.lent.bits.now) self.now.x))
            (capped (make_sum (plan self.now.lent.plan) (bits_in self.now.lent.bits.now) self.now.x)) result }
    {
        let clauses = index(self.lent.plan.tables, 1);
        let mut sum = Counts::NONE;
        for c in 0..clauses {
            sum = sum + self.clause_counts(c);
        }
        sum
    }
}

// What the flip of a variable from 1 to n spoils and mends.
pub fn counts_core(t: &Tables<'_>, assignment: &[u8], x: u32) -> Counts
    requires { ((plan t.now).variables ≤ length assignment.now) × (0 < x) × (x ≤ (plan t.now).variables) }
    ensures { CountsAre
        (capped_break (plan t.now) (bits_of (plan t.now).variables assignment.now) x)
        (capped_make (plan t.now) (bits_of (plan t.now).variables assignment.now) x) result }
{
    let lent = Lent::of(*t, assignment);
    let asked = Asked { lent, x };
    asked.counts()
}
