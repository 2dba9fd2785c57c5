// What a flip spoils, or mends, of a clause of several rules: the shares of its rules joined, each from what is kept of the rule. The places of the group tell
// which rules name the variable. The rule and the next place stay two numbers beside the group: the loop steps each by itself, and a struct of the three would
// be made anew for each rule, to be asked only whether the place is the rule's.
#![tactic(auto)]

ghost use Rattle.std.specs.Prelude.{◌≡◌};
ghost use Rattle.plpb.specs.Plan.{named_in};
ghost use Rattle.plpb.specs.Count.{capped};
ghost use Rattle.plpb.specs.Equations.{out, clause_break, clause_make};
ghost use Rattle.counting.specs.Count.{number};
ghost use Rattle.order.specs.Order.{rule_at};
ghost use Rattle.rules.specs.Places.{standing_in};
ghost use Rattle.rules.specs.State.{Balanced, shares_from};
ghost use Rattle.groups.specs.Group.{plan, bits, clause};
ghost use Rattle.joining.specs.Merging.{Merging, Placed};
ghost use Rattle.joining.specs.Pairs.{JoinedPair, SeenFor, clause_count};

use counting::bound::{over, over_difference};
use counting::count::Count;
use effects::told;
use format::ORDER;
use groups::Group;
use places::rule_in;
use recount::clause::rules_of;
use rules::place::Stands;
use rules::state::State;
use words::word;

// Whether place i, if it is one of the group, is that of rule r: whether the rule names the variable.
fn is_at(group: &Group<'_>, r: usize, i: usize) -> bool
    requires { Merging group.now r i }
    ensures { result ≡ named_in group.now.run.now.x (rule_at (plan group.now) r).terms }
{
    let run = group.run;
    if i < group.end {
        return rule_in(word(run.footing.tables, ORDER + i)) == r;
    }
    false
}

// e and g of some rules joined: what a flip spoils of their parts, and what it leaves unsatisfied. It is `Shares` without f: a clause's break count takes no
// f, and its make count no e.
#[derive(Clone, Copy)]
struct Pair {
    e: Count,
    g: Count,
}

impl Pair {
    // That of a clause before its first rule: its one part is empty, and stays unsatisfied.
    const START: Pair = Pair {
        e: Count::ZERO,
        g: Count::ONE,
    };

    // Joined with e and g of one more rule, as `Shares::joined` has it.
    fn joined(self, e: Count, g: Count) -> Pair
        ensures { JoinedPair self (number e) (number g) result }
    {
        Pair {
            e: self.e * (e + g) + self.g * e,
            g: self.g * g,
        }
    }

    // The same with a rule that does not name the variable: no part of it is spoiled. Most rules of a long clause are such, and two products do for them.
    fn narrowed(self, s: State) -> Pair
        requires { Balanced s × (standing_in s.stands ≡ out) }
        ensures { JoinedPair self (shares_from s).e (shares_from s).g result }
    {
        let g = over(s.n as u64, s.a) + over(s.p as u64, s.b);
        Pair {
            e: self.e * g,
            g: self.g * g,
        }
    }

    // The same with any rule in this state: equations (10) and (12). e alone is `spoiling::spoiled`; here one match tells both.
    fn with(self, s: State) -> Pair
        requires { Balanced s }
        ensures { JoinedPair self (shares_from s).e (shares_from s).g result }
    {
        let n = s.n as u64;
        let p = s.p as u64;
        match s.stands {
            Stands::Out => self.narrowed(s),
            Stands::On(w) => self.joined(
                over_difference(n, w as u64, s.a),
                over(n, s.a) + over(p - w as u64, s.b),
            ),
            Stands::Off(w) => self.joined(
                over_difference(p, w as u64, s.b),
                over(p, s.b) + over(n - w as u64, s.a),
            ),
        }
    }
}

// Which parts are counted: those that the flip spoils, or those that it mends.
#[derive(Clone, Copy)]
enum Counted {
    Spoiled,
    Mended,
}

impl Counted {
    // The state whose e is asked: what the flip mends is what turning the variable back would spoil, and it leaves the same unsatisfied.
    fn seen(self, s: State) -> State
        requires { Balanced s }
        ensures { SeenFor self s result }
    {
        match self {
            Counted::Spoiled => s,
            Counted::Mended => s.flipped(),
        }
    }
}

// What the flip changes of the clause whose group this is. It goes through all rules: a caller asks first whether the flip breaks the clause, or mends
// something of one that does not hold, and then no rule makes both numbers 0.
fn count_along(group: &Group<'_>, counted: Counted) -> Count
    requires { Placed group.now }
    ensures { number result ≡ capped (clause_count counted (bits group.now) group.now.run.now.x (clause group.now)) }
{
    let run = group.run;
    let mut pair = Pair::START;
    let mut i = group.first;
    for r in rules_of(run.footing.tables, group.clause) {
        if is_at(group, r, i) {
            pair = pair.with(counted.seen(run.state_at(i)));
            i += 1;
        } else {
            pair = pair.narrowed(told(run.footing.tallies, r, Stands::Out));
        }
    }
    pair.e
}

// How many clauses of its clause's expansion the flip spoils: equation (6).
pub fn break_along(group: &Group<'_>) -> Count
    requires { Placed group.now }
    ensures { number result ≡ capped (clause_break (bits group.now) group.now.run.now.x (clause group.now)) }
{
    count_along(group, Counted::Spoiled)
}

// How many it mends: equation (7).
pub fn make_along(group: &Group<'_>) -> Count
    requires { Placed group.now }
    ensures { number result ≡ capped (clause_make (bits group.now) group.now.run.now.x (clause group.now)) }
{
    count_along(group, Counted::Mended)
}
