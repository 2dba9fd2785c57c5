// Fractions in lowest terms, by Euclid's algorithm.
#![tactic(auto)]

ghost use Rattle.std.specs.Prelude.{◌≡◌, ◌^◌, ◌<◌, nat_abs};
ghost use Rattle.fractions.specs.Fractions.{gcd, reduced, reduced_z};

#[repr(C)]
#[derive(Clone, Copy)]
pub struct Fraction {
    pub top: u64,
    pub bottom: u64,
}

// A struct with a type parameter does not cross to C, and both kinds stand in `Figures`, which does: so they are no one struct over the type of the top.
#[repr(C)]
#[derive(Clone, Copy)]
pub struct SignedFraction {
    pub top: i64,
    pub bottom: u64,
}

// The greatest common divisor of two numbers.
fn divisor(a: u64, b: u64) -> u64
    ensures { result ≡ gcd a b }
{
    let mut x = a;
    let mut y = b;
    while 0 < y {
        let rest = x % y;
        x = y;
        y = rest;
    }
    x
}

// a over b in lowest terms.
pub fn reduce(a: u64, b: u64) -> Fraction
    requires { 0 < b }
    ensures { result ≡ reduced a b }
{
    let d = divisor(a, b);
    Fraction {
        top: a / d,
        bottom: b / d,
    }
}

// The same for a number that may be negative. One function over both tops would need a trait with a size, a quotient and a law of each: it is no plainer.
pub fn reduce_signed(a: i64, b: u64) -> SignedFraction
    requires { (0 < b) × (b < 2 ^ 63) }
    ensures { result ≡ reduced_z a b }
{
    let d = divisor(a.unsigned_abs(), b);
    SignedFraction {
        top: a / (d as i64),
        bottom: b / d,
    }
}
