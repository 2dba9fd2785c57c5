// The bounds of a rule against its least and greatest sum: "A rule is judged by its least and greatest sum alone."
ghost use Rattle.std.specs.Prelude.{◌≡◌, false, true, MatchOption};
ghost use Rattle.plpb.specs.Plan.{at_least, at_most};
ghost use Rattle.plpb.specs.Lists.{◌and◌};
ghost use Rattle.counting.specs.Bound.{bound_of as as_bound};
ghost use Rattle.format.specs.File.{bound_of};
ghost use Rattle.fates.specs.Rules.{still};

use format::Mode;

// A rule's bounds, each of which may be absent.
#[derive(Clone, Copy, PartialEq, Eq)]
pub struct Bounds {
    pub lower: Option<i32>,
    pub upper: Option<i32>,
}

// "Mode 1 is lower only, 2 upper only, 3 both". The mode comes as its byte, since the definition tells it from two numbers alone and the option of `Mode::of`
// would be opened at once.
pub(crate) fn by_mode(mode: u8, lower: i32, upper: i32) -> Bounds
    ensures { (as_bound result.lower ≡ bound_of 2 mode lower) × (as_bound result.upper ≡ bound_of 1 mode upper) }
{
    Bounds {
        lower: (mode != Mode::Upper as u8).then_some(lower),
        upper: (mode != Mode::Lower as u8).then_some(upper),
    }
}

// Whether a sum meets a lower bound, which an absent one always is.
fn at_least(lower: Option<i32>, sum: i32) -> bool
    ensures { result ≡ at_least (as_bound lower) sum }
{
    lower.is_none_or(|lower| lower <= sum)
}

// Whether a sum meets an upper bound. The two look alike, but a sum stands on the other side of a lower bound.
fn at_most(upper: Option<i32>, sum: i32) -> bool
    ensures { result ≡ at_most (as_bound upper) sum }
{
    upper.is_none_or(|upper| sum <= upper)
}

// A bound without which nothing changes is dropped.
fn unmet(met: bool, bound: Option<i32>) -> Option<i32>
    ensures { as_bound result ≡ still met (as_bound bound) }
{
    if met { None } else { bound }
}

// What is left of a rule's bounds, none where no values can meet the rule: "drop a bound that all values of the remaining variables meet".
pub(crate) fn left(b: Bounds, least: i32, greatest: i32) -> Option<Bounds>
    ensures { MatchOption result ((at_least (as_bound b.lower) greatest and at_most (as_bound b.upper) least) ≡ false)
        (λ r. ((at_least (as_bound b.lower) greatest and at_most (as_bound b.upper) least) ≡ true)
        × (as_bound r.lower ≡ still (at_least (as_bound b.lower) least) (as_bound b.lower))
        × (as_bound r.upper ≡ still (at_most (as_bound b.upper) greatest) (as_bound b.upper))) }
{
    if !at_least(b.lower, greatest) || !at_most(b.upper, least) {
        return None;
    }
    Some(Bounds {
        lower: unmet(at_least(b.lower, least), b.lower),
        upper: unmet(at_most(b.upper, greatest), b.upper),
    })
}
