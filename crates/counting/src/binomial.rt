// Binomials as capped counts: of m over k, and the difference of two with the same lower number. The upper number is a sum of weights, made where it is
// asked about, as m + w in a clause and its code, so that a type that keeps it below 2^32 would be made and opened again at each +.
ghost use Rattle.std.specs.Prelude.{◌≡◌, true, ◌+◌, ◌-◌, ◌≤◌, ◌<◌, min};
ghost use Rattle.plpb.specs.Count.{cap, capped};
ghost use Rattle.plpb.specs.Equations.{binom};
ghost use Rattle.plpb.specs.Factors.{triangle_rows, passes_at, factors};
ghost use Rattle.counting.specs.Count.{number};

use crate::count::Count;
use crate::pascal::{ROWS, tabled};

// A binomial, and how many factors it cost.
#[derive(Clone, Copy)]
pub struct Report {
    pub count: Count,
    pub factors: u32,
}

// m over k for k up to the middle, where the entries only rise: once past the cap, past it to the end.
fn lower_half(m: u64, k: u64) -> Report
    requires { (m < 4294967296) × (k + k ≤ m) }
    ensures count_value { number result.count ≡ capped (binom m k) }
    ensures factors_value { result.factors ≡ passes_at m 0 k }
{
    if k == 0 {
        return Report {
            count: Count::ONE,
            factors: 0,
        };
    }
    let mut entry = m;
    for i in 1..k {
        entry = entry * (m - i) / (i + 1);
        if Count::CAP.rank() < entry {
            return Report {
                count: Count::CUT,
                factors: (i + 1) as u32,
            };
        }
    }
    Report {
        count: Count::from(entry as u32),
        factors: k as u32,
    }
}

// A row reads the same from both ends: the nearer one of k.
fn nearer(m: u64, k: u64) -> u64
    requires { k ≤ m }
    ensures { result ≡ min k (m - k) }
{
    k.min(m - k)
}

// m over k above the triangle.
fn by_factors(m: u64, k: u64) -> Report
    requires { (m < 4294967296) × (triangle_rows ≤ m) × (k ≤ m) }
    ensures count_value { number result.count ≡ capped (binom m k) }
    ensures factors_value { result.factors ≡ factors m k }
{
    lower_half(m, nearer(m, k))
}

// m over k. Above the triangle an entry that is 17 or more from both ends of its row is past the cap.
pub fn binomial(m: u64, k: u64) -> Count
    requires { m < 4294967296 }
    ensures { number result ≡ capped (binom m k) }
{
    if m < k {
        return Count::ZERO;
    }
    if m < ROWS {
        return Count::from(tabled(m, k));
    }
    if 17 <= k && k <= m - 17 {
        return Count::CUT;
    }
    by_factors(m, k).count
}

// m over k, and its factors: none where k exceeds m or the entry stands in the triangle. Request T-03 has a binomial report them, and only the probe asks:
// every other count is asked of `binomial`, since a report goes through memory.
pub fn reported(m: u64, k: u64) -> Report
    requires { m < 4294967296 }
    ensures count_value { number result.count ≡ capped (binom m k) }
    ensures factors_value { result.factors ≡ factors m k }
{
    if m < k || m < ROWS {
        return Report {
            count: binomial(m, k),
            factors: 0,
        };
    }
    by_factors(m, k)
}

// m over k from the entry before it in the row above, m − 1 over k − 1.
fn absorbed(before: u64, m: u64, k: u64) -> u64
    requires { (m < 4294967296) × (0 < m) × (0 < k) × (before < 4294967296) × (before ≡ binom (m - 1) (k - 1)) }
    ensures { result ≡ binom m k }
{
    before * m / k
}

// In what follows m, w and k go one by one, the letters of the difference that each contract says: a struct would put its name before each of them.

// The difference below, where what it gains in its last row is not cut: then the entries behind both numbers are exact.
fn exact_difference(gain: u64, m: u64, w: u64, k: u64) -> Count
    requires { (m + w < 4294967296) × (0 < w) × (0 < k) × (gain < 4294967296) × (gain ≡ binom (m + w - 1) (k - 1)) }
    ensures { number result ≡ capped (binom (m + w) k - binom m k) }
{
    let above = absorbed(gain, m + w, k);
    if m < k {
        return Count::from(above);
    }
    let before = binomial(m - 1, k - 1);
    Count::from(above - absorbed(before.rank(), m, k))
}

// The difference below by what it gains in its last row. Both numbers may be past the cap where their difference is not, so neither is cut first:
// the difference is at least m + w − 1 over k − 1, and both come exactly from such entries while these are not cut.
// All taken, or one, needs no division.
// It stays a call, since few differences come to it, and put into its callers it makes all others longer.
#[inline(never)]
fn difference_by_gain(m: u64, w: u64, k: u64) -> Count
    requires { m + w < 4294967296 }
    ensures { number result ≡ capped (binom (m + w) k - binom m k) }
{
    if k == 0 || w == 0 {
        return Count::ZERO;
    }
    if m + w == k {
        return Count::ONE;
    }
    if k == 1 {
        return Count::from(w);
    }
    let gain = binomial(m + w - 1, k - 1);
    if gain.is_cut() {
        return Count::CUT;
    }
    exact_difference(gain.rank(), m, w, k)
}

// The difference below where both rows stand in the triangle: no entry there is cut.
fn tabled_difference(m: u64, w: u64, k: u64) -> Count
    requires { (m + w < triangle_rows) × (k ≤ m + w) }
    ensures { number result ≡ capped (binom (m + w) k - binom m k) }
{
    let above = tabled(m + w, k);
    if m < k {
        return Count::from(above);
    }
    Count::from(above - tabled(m, k))
}

// m + w over k less m over k. Nearly all that are asked for are nothing, stand in the triangle or are past the cap for sure, so these are told apart first.
pub fn difference(m: u64, w: u64, k: u64) -> Count
    requires { m + w < 4294967296 }
    ensures { number result ≡ capped (binom (m + w) k - binom m k) }
{
    if m + w < k {
        return Count::ZERO;
    }
    if m + w < ROWS {
        return tabled_difference(m, w, k);
    }
    if surely_past(m, w, k) {
        return Count::CUT;
    }
    difference_by_gain(m, w, k)
}

// Whether that difference is past the cap for sure, told without a binomial: what it is at least stands 17 or more from both ends of its row.
pub fn surely_past(m: u64, w: u64, k: u64) -> bool
    requires { m + w < 4294967296 }
    ensures { result ≡ true → cap < binom (m + w) k - binom m k }
{
    19 <= k && 0 < w && k <= m + w && 17 <= m + w - k
}
