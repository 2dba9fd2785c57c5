// The counts as functions of numbers alone, for the tests and benchmarks that compare them with other programs. Nothing else links this crate.
// Numbers that no lawful plan has are answered by 0.
#![tactic(auto)]

ghost use Rattle.std.specs.Prelude.{◌≡◌};
ghost use Rattle.plpb.specs.Search.{third as thirdOf};
ghost use Rattle.plpb.specs.Count.{given};
ghost use Rattle.counting.specs.Count.{number, count_words, marked_words};
ghost use Rattle.counting.specs.Shares.{shares_in, joined_shares};
ghost use Rattle.probe.specs.Answers.{binomial_answer, factors_answer, difference_answer, number_in, three_in, three_words};
ghost use Rattle.probe.specs.Answers.{share_words, bound_if, standing_for, is_within, is_balanced, shares_answer};
ghost use Rattle.rules.specs.Places.{standing_in};

use counting::binomial::{binomial, difference, reported};
use counting::count::{Count, Marked};
use counting::shares::Shares;
use counting::tightening::third;
use rules::place::Stands;
use rules::state::State;

#[repr(C)]
#[derive(Clone, Copy)]
pub struct Three {
    pub e: Marked,
    pub f: Marked,
    pub g: Marked,
}

impl Three {
    const NONE: Three = Three {
        e: Marked::ZERO,
        f: Marked::ZERO,
        g: Marked::ZERO,
    };
}

// m over k.
#[unsafe(no_mangle)]
pub extern "C" fn probe_binomial(m: u64, k: u64) -> Marked
    ensures { marked_words result ≡ count_words (given (binomial_answer m k)) }
{
    if u64::from(u32::MAX) < m {
        return Marked::ZERO;
    }
    Marked::from(binomial(m, k))
}

// How many factors m over k costs.
#[unsafe(no_mangle)]
pub extern "C" fn probe_factors(m: u64, k: u64) -> u32
    ensures { result ≡ factors_answer m k }
{
    if u64::from(u32::MAX) < m {
        return 0;
    }
    reported(m, k).factors
}

// m + w over k less m over k.
#[unsafe(no_mangle)]
pub extern "C" fn probe_difference(m: u32, w: u32, k: u64) -> Marked
    ensures { marked_words result ≡ count_words (given (difference_answer m w k)) }
{
    let low = u64::from(m);
    let more = u64::from(w);
    if u64::from(u32::MAX) < low + more {
        return Marked::ZERO;
    }
    Marked::from(difference(low, more, k))
}

impl From<Shares> for Three {
    ghost from_gives = { λ s t. three_words t ≡ share_words (shares_in s) };

    fn from(s: Shares) -> Three {
        Three {
            e: Marked::from(s.e),
            f: Marked::from(s.f),
            g: Marked::from(s.g),
        }
    }
}

// A count from what stands for one. It is no From of the counts, since none but the probe is handed one back.
fn lifted_count(m: Marked) -> Count
    ensures { number result ≡ number_in m }
{
    if m.cut == 0 {
        Count::from(m.value)
    } else {
        Count::CUT
    }
}

impl From<Three> for Shares {
    ghost from_gives = { λ t s. shares_in s ≡ three_in t };

    fn from(t: Three) -> Shares {
        Shares {
            e: lifted_count(t.e),
            f: lifted_count(t.f),
            g: lifted_count(t.g),
        }
    }
}

// How a variable stands, by the number that C has for the case: the rule does not name it (0), its literal is true (1) or false (any other).
fn stands(case: u32, w: u32) -> Stands
    ensures { standing_in result ≡ standing_for case w }
{
    match case {
        0 => Stands::Out,
        1 => Stands::On(w),
        _ => Stands::Off(w),
    }
}

// Whether the literal's weight is part of the sum that it counts in, P or N.
fn is_within(s: State) -> bool
    ensures { result ≡ is_within (standing_in s.stands) s.n s.p }
{
    match s.stands {
        Stands::Out => true,
        Stands::On(w) => w <= s.p,
        Stands::Off(w) => w <= s.n,
    }
}

// Whether N and P are a number of 32 bits together, and the literal's weight is part of its sum.
fn is_balanced(s: State) -> bool
    ensures { result ≡ is_balanced s }
{
    u64::from(s.n) + u64::from(s.p) <= u64::from(u32::MAX) && is_within(s)
}

// e, f and g of a rule for a variable that stands so, with N and P and with the two sizes where a bound is there. A literal that weighs more than the sum it
// counts in is answered by 0 too. C has no Option, so a mark stands before each size.
#[unsafe(no_mangle)]
pub extern "C" fn probe_shares(
    case: u32,
    w: u32,
    n: u32,
    p: u32,
    lower: bool,
    a: u64,
    upper: bool,
    b: u64,
) -> Three
    ensures { three_words result ≡ share_words (shares_answer (standing_for case w) n p (bound_if lower a) (bound_if upper b)) }
{
    let state = State {
        n,
        p,
        stands: stands(case, w),
        a: lower.then_some(a),
        b: upper.then_some(b),
    };
    if is_balanced(state) {
        Three::from(state.shares())
    } else {
        Three::NONE
    }
}

// The shares of a clause's rules so far, joined with those of one more.
#[unsafe(no_mangle)]
pub extern "C" fn probe_joined(clause: Three, rule: Three) -> Three
    ensures { three_words result ≡ share_words (joined_shares (three_in clause) (three_in rule)) }
{
    Three::from(Shares::from(clause).joined(Shares::from(rule)))
}

// A third, rounded down.
#[unsafe(no_mangle)]
pub extern "C" fn probe_third(a: i64) -> i64
    ensures { result ≡ thirdOf a }
{
    third(a)
}
