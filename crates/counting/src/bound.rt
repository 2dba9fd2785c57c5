// The size that a bound of a rule asks for, A or B, where the bound is there; and binomials over it. Numbers and bound go one by one, as the equations that
// use them have them, and each clause bounds the sum that its binomials are of.
ghost use Rattle.std.specs.Prelude.{◌≡◌, true, ◌+◌, ◌-◌, ◌<◌};
ghost use Rattle.plpb.specs.Count.{cap, capped};
ghost use Rattle.plpb.specs.Equations.{over as overSize};
ghost use Rattle.counting.specs.Count.{number};
ghost use Rattle.counting.specs.Bound.{bound_of};

use crate::binomial::{binomial, difference, surely_past};
use crate::count::Count;

// m over a bound's size: an absent bound gives no parts.
pub fn over(m: u64, bound: Option<u64>) -> Count
    requires { m < 4294967296 }
    ensures { number result ≡ capped (overSize m (bound_of bound)) }
{
    bound.map_or(Count::ZERO, |k| binomial(m, k))
}

// m + w over a bound's size less m over it.
pub fn over_difference(m: u64, w: u64, bound: Option<u64>) -> Count
    requires { m + w < 4294967296 }
    ensures { number result ≡ capped (overSize (m + w) (bound_of bound) - overSize m (bound_of bound)) }
{
    bound.map_or(Count::ZERO, |k| difference(m, w, k))
}

// Whether that difference is past the cap for sure.
pub fn over_surely_past(m: u64, w: u64, bound: Option<u64>) -> bool
    requires { m + w < 4294967296 }
    ensures { result ≡ true → cap < overSize (m + w) (bound_of bound) - overSize m (bound_of bound) }
{
    bound.is_some_and(|k| surely_past(m, w, k))
}
