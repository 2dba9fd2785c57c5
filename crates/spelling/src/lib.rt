// Bytes, texts and numbers put into a lent buffer from a place on, as far as it goes. Each function answers the place behind what it puts, whether or not
// there is room: with an empty buffer it measures, and with one that is long enough it writes.
// Here and in the crates above, the buffer and the place in it stay two parameters: a struct that held them would have to say in each contract that the
// buffer in it is still the one that was lent, where the place is a plain number.
#![tactic(auto)]

ghost use Rattle.std.specs.Prelude.{◌≡◌, [], ◌∷◌, nat_abs};
ghost use Rattle.texts.specs.Texts.{decimal, signed_decimal};
ghost use Rattle.opb.specs.Spell.{coefficient};
ghost use Rattle.spelling.specs.Overlay.{Puts, Room};

use texts::digit;
use words::magnitude;

pub fn put_byte(out: &mut [u8], at: usize, b: u8) -> usize
    requires { Room at (b ∷ []) }
    ensures { Puts (b ∷ []) at out.old out.new result }
{
    if at < out.len() {
        out[at] = b;
    }
    at + 1
}

pub fn put_bytes(out: &mut [u8], at: usize, bytes: &[u8]) -> usize
    requires { Room at bytes.now }
    ensures { Puts bytes.now at out.old out.new result }
{
    let mut next = at;
    for b in bytes {
        next = put_byte(out, next, *b);
    }
    next
}

// The library writes a number into a formatter, which fails at the end of a buffer, where here the digits past it are still counted: one that counts on would
// be a type of its own, with a method and clauses for what is one recursion here.
pub fn put_decimal(out: &mut [u8], at: usize, n: u64) -> usize
    requires { Room at (decimal n) }
    ensures { Puts (decimal n) at out.old out.new result }
{
    if n < 10 {
        return put_byte(out, at, digit(n));
    }
    let last = put_decimal(out, at, n / 10);
    put_byte(out, last, digit(n % 10))
}

fn sign(v: i32) -> u8
    ensures { result ∷ decimal (nat_abs v) ≡ coefficient v }
{
    if v < 0 { b'-' } else { b'+' }
}

// A number behind its sign, `+` too.
pub fn put_coefficient(out: &mut [u8], at: usize, v: i32) -> usize
    requires { Room at (coefficient v) }
    ensures { Puts (coefficient v) at out.old out.new result }
{
    let next = put_byte(out, at, sign(v));
    put_decimal(out, next, u64::from(magnitude(v)))
}

// A number with a sign only where it is below 0.
pub fn put_signed(out: &mut [u8], at: usize, v: i32) -> usize
    requires { Room at (signed_decimal v) }
    ensures { Puts (signed_decimal v) at out.old out.new result }
{
    if v < 0 {
        return put_coefficient(out, at, v);
    }
    put_decimal(out, at, u64::from(magnitude(v)))
}
