// A rule as it stands under an assignment, seen from one variable: what is asked of it is whether it holds, its shares e, f and g, and
// how it stands once the variable is turned over.
ghost use Rattle.std.specs.Prelude.{◌≡◌, ◌≤◌};
ghost use Rattle.plpb.specs.Plan.{named_in};
ghost use Rattle.plpb.specs.Normal.{below_size};
ghost use Rattle.counting.specs.Bound.{bound_of};
ghost use Rattle.counting.specs.Count.{number};
ghost use Rattle.counting.specs.Shares.{shares_in, capped_shares, joined_shares};
ghost use Rattle.words.specs.Words.{word_at};
ghost use Rattle.rules.specs.Terms.{bits_in};
ghost use Rattle.rules.specs.Rules.{rule_at, RuleInside, RuleReadable};
ghost use Rattle.rules.specs.State.{Balanced, StateOf, Made, Seen, holds_in, shares_from, untouched, Turned};

use crate::entry::{Entry, read_entry};
use crate::place::{Stands, stands_at};
use crate::size::{lower_size, upper_size};
use crate::sums::Sums;
use counting::count::Count;
use counting::shares::{Shares, literal_absent, literal_false, literal_true};

// N, P, how the variable stands, and the sizes A and B. That it is balanced is no field of it: it may be seen from a variable that stands in any way, or held
// against another P, and is then not balanced until more is known.
#[derive(Clone, Copy)]
pub struct State {
    pub n: u32,
    pub p: u32,
    pub stands: Stands,
    pub a: Option<u64>,
    pub b: Option<u64>,
}

// An absent bound has no size to reach.
fn below(n: u32, size: Option<u64>) -> bool
    ensures { result ≡ below_size n (bound_of size) }
{
    size.is_none_or(|k| u64::from(n) < k)
}

// The shares of some rules joined with those of one of which no part is spoiled or mended, and g of them stay unsatisfied.
fn narrowed(shares: Shares, g: Count) -> Shares
    ensures { shares_in result ≡ capped_shares (joined_shares (shares_in shares) (untouched (number g))) }
{
    Shares {
        e: shares.e * g,
        f: shares.f * g,
        g: shares.g * g,
    }
}

impl State {
    // Seen from no variable.
    fn of(e: Entry, s: Sums) -> State
        requires { (s.p ≤ s.k) × (s.rise ≤ s.k) }
        ensures { Made e s result }
    {
        State {
            n: s.k - s.p,
            p: s.p,
            stands: Stands::Out,
            a: lower_size(e.lower, s.k - s.rise),
            b: upper_size(e.upper, s.rise),
        }
    }

    // The same, seen from a variable that stands so.
    pub fn seen(self, stands: Stands) -> State
        ensures { Seen stands self result }
    {
        State { stands, ..self }
    }

    // N below A says that the lower bound is met, P below B that the upper one is.
    pub fn holds(self) -> bool
        ensures { result ≡ holds_in self }
    {
        below(self.n, self.a) && below(self.p, self.b)
    }

    // e, f and g by the paper's three cases: (10), (11) and (12). The widenings are `as`: with `u64::from`, tried, the proof would have to
    // cite its clause at each of them.
    pub fn shares(self) -> Shares
        requires { Balanced self }
        ensures { shares_in result ≡ capped_shares (shares_from self) }
    {
        let n = self.n as u64;
        let p = self.p as u64;
        match self.stands {
            Stands::Out => literal_absent(n, p, self.a, self.b),
            Stands::On(w) => literal_true(w as u64, n, p, self.a, self.b),
            Stands::Off(w) => literal_false(w as u64, n, p, self.a, self.b),
        }
    }

    // The shares of some rules joined with those of this one. Most rules of a long clause do not name the variable: no part of such a rule is spoiled or
    // mended, and three products do for the five products and four sums of `Shares::joined`.
    pub fn join(self, shares: Shares) -> Shares
        requires { Balanced self }
        ensures { shares_in result ≡ capped_shares (joined_shares (shares_in shares) (capped_shares (shares_from self))) }
    {
        match self.stands {
            Stands::Out => narrowed(shares, self.shares().g),
            Stands::On(_) | Stands::Off(_) => shares.joined(self.shares()),
        }
    }

    // Once the variable is turned over: its literal's weight goes from P to N, or from N to P.
    pub fn flipped(self) -> State
        requires { Balanced self }
        ensures { Turned self result }
    {
        match self.stands {
            Stands::Out => self,
            Stands::On(w) => State {
                n: self.n + w,
                p: self.p - w,
                stands: Stands::Off(w),
                ..self
            },
            Stands::Off(w) => State {
                n: self.n - w,
                p: self.p + w,
                stands: Stands::On(w),
                ..self
            },
        }
    }
}

// What follows takes the two tables one by one: a plan's tables with their facts are a struct of the crates above, which read rules of tables that hold
// a plan, and here a rule may stand at any word of any table.

// Whether the rule whose entry begins at a word of the table names a variable. It reads no weight, so it is cheap to ask first.
pub fn names(tables: &[u8], terms: &[u8], at: usize, x: u32) -> bool
    requires { RuleInside tables.now terms.now at }
    ensures { result ≡ named_in x (rule_at (word_at tables.now) (word_at terms.now) at).terms }
{
    read_entry(tables, at).find(terms, x).is_some()
}

// The state of that rule, seen from no variable.
pub fn read_state(tables: &[u8], terms: &[u8], assignment: &[u8], at: usize) -> State
    requires { RuleReadable tables.now terms.now assignment.now at }
    ensures { StateOf (bits_in assignment.now) 0 (rule_at (word_at tables.now) (word_at terms.now) at) result }
{
    let e = read_entry(tables, at);
    State::of(e, e.scan(terms, assignment))
}

// The same, seen from x.
pub fn read_state_from(tables: &[u8], terms: &[u8], assignment: &[u8], at: usize, x: u32) -> State
    requires { RuleReadable tables.now terms.now assignment.now at }
    ensures { StateOf (bits_in assignment.now) x (rule_at (word_at tables.now) (word_at terms.now) at) result }
{
    let e = read_entry(tables, at);
    let s = State::of(e, e.scan(terms, assignment));
    s.seen(stands_at(terms, assignment, e.find(terms, x)))
}
