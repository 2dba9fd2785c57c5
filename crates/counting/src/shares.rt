// e, f and g: how many parts of a rule, or of a clause, a flip spoils, mends or leaves unsatisfied, each as a capped count.
// The first three functions are the three cases of paper 004's equations (10) to (12), in its order and "read with 'its literal is
// true' for 'x is true'". C(m, k) is m over k; w is the weight of the variable's literal, N and P are the weights of the rule's false and
// of its true literals. K − l + 1 is the size a, and u + 1 the size b: an absent bound has no parts, and a size raised to 0 one, which is
// empty. The letters go one by one: each line reads as its equation does, which a struct's name before each letter would hide. So does what is known of
// them: N + P is K, which 32 bits hold.
ghost use Rattle.std.specs.Prelude.{◌≡◌, ◌+◌, ◌-◌, ◌≤◌, ◌<◌};
ghost use Rattle.plpb.specs.Count.{capped};
ghost use Rattle.plpb.specs.Equations.{over as overSize};
ghost use Rattle.counting.specs.Bound.{bound_of};
ghost use Rattle.counting.specs.Count.{number};
ghost use Rattle.counting.specs.Shares.{shares_in, capped_shares, joined_shares};

use crate::bound::{over, over_difference};
use crate::count::Count;

#[derive(Clone, Copy)]
pub struct Shares {
    pub e: Count,
    pub f: Count,
    pub g: Count,
}

// Case 1: the variable does not occur in the rule.
pub fn literal_absent(n: u64, p: u64, a: Option<u64>, b: Option<u64>) -> Shares
    requires { n + p < 4294967296 }
    ensures e { number result.e ≡ capped 0 }
    ensures f { number result.f ≡ capped 0 }
    ensures g { number result.g ≡ capped (overSize n (bound_of a) + overSize p (bound_of b)) }
{
    // (10), case 1: e = 0
    let e = Count::ZERO;
    // (11), case 1: f = 0
    let f = Count::ZERO;
    // (12), case 1: g = C(N, K − l + 1) + C(P, u + 1)
    let g = over(n, a) + over(p, b);
    Shares { e, f, g }
}

// Case 2: its literal is true.
pub fn literal_true(w: u64, n: u64, p: u64, a: Option<u64>, b: Option<u64>) -> Shares
    requires { (n + p < 4294967296) × (w ≤ p) }
    ensures e { number result.e ≡ capped (overSize (n + w) (bound_of a) - overSize n (bound_of a)) }
    ensures f { number result.f ≡ capped (overSize p (bound_of b) - overSize (p - w) (bound_of b)) }
    ensures g { number result.g ≡ capped (overSize n (bound_of a) + overSize (p - w) (bound_of b)) }
{
    // (10), case 2: e = C(N + w, K − l + 1) − C(N, K − l + 1)
    let e = over_difference(n, w, a);
    // (11), case 2: f = C(P, u + 1) − C(P − w, u + 1)
    let f = over_difference(p - w, w, b);
    // (12), case 2: g = C(N, K − l + 1) + C(P − w, u + 1)
    let g = over(n, a) + over(p - w, b);
    Shares { e, f, g }
}

// Otherwise: its literal is false. This is case 2 with the sides exchanged, but each case stands in full: a reader holds each line against its equation.
pub fn literal_false(w: u64, n: u64, p: u64, a: Option<u64>, b: Option<u64>) -> Shares
    requires { (n + p < 4294967296) × (w ≤ n) }
    ensures e { number result.e ≡ capped (overSize (p + w) (bound_of b) - overSize p (bound_of b)) }
    ensures f { number result.f ≡ capped (overSize n (bound_of a) - overSize (n - w) (bound_of a)) }
    ensures g { number result.g ≡ capped (overSize p (bound_of b) + overSize (n - w) (bound_of a)) }
{
    // (10), otherwise: e = C(P + w, u + 1) − C(P, u + 1)
    let e = over_difference(p, w, b);
    // (11), otherwise: f = C(N, K − l + 1) − C(N − w, K − l + 1)
    let f = over_difference(n - w, w, a);
    // (12), otherwise: g = C(P, u + 1) + C(N − w, K − l + 1)
    let g = over(p, b) + over(n - w, a);
    Shares { e, f, g }
}

impl Shares {
    // Those of a clause before its first rule: its one part is empty, and stays unsatisfied.
    pub const START: Shares = Shares {
        e: Count::ZERO,
        f: Count::ZERO,
        g: Count::ONE,
    };

    // e + g: the parts that are false after the flip. It and the next are the factors of (6) and of (7), a sum of two letters each.
    pub fn false_after(self) -> Count
        ensures { number result ≡ capped (number self.e + number self.g) }
    {
        self.e + self.g
    }

    // f + g: the parts that are false before it.
    pub fn false_before(self) -> Count
        ensures { number result ≡ capped (number self.f + number self.g) }
    {
        self.f + self.g
    }

    // Each part so far joined with each of one more rule. A joined part is spoiled when the first is and the second is false
    // after the flip, or when the first stays false and the second is spoiled: so no capped count is subtracted.
    pub fn joined(self, rule: Shares) -> Shares
        ensures { shares_in result ≡ capped_shares (joined_shares (shares_in self) (shares_in rule)) }
    {
        Shares {
            e: self.e * rule.false_after() + self.g * rule.e,
            f: self.f * rule.false_before() + self.g * rule.f,
            g: self.g * rule.g,
        }
    }
}
