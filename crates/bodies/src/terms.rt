// The tests of a rule's bounds and of a field's terms.
ghost use Rattle.std.specs.Prelude.{◌≡◌, ◌+◌, ◌/◌, ◌≤◌, pos, length};
ghost use Rattle.format.specs.Limits.{terms_lawful};
ghost use Rattle.format.specs.File.{term_at, terms_at, bounds_lawful};
ghost use Rattle.bodies.specs.Terms.{term_lawful};

use crate::rising::Rising;
use format::Mode;
use words::{magnitude, read_i32, read_u16};

// "6: mode outside 1 to 3, a bound outside ±1,000,000,000, an absent bound not 0."
// Mode and bounds come as three: the one caller reads them of a file, and no struct of them would be kept behind the test.
pub fn bounds_lawful(mode: u8, lower: i32, upper: i32) -> bool
    ensures { result ≡ bounds_lawful mode lower upper }
{
    let Some(mode) = Mode::of(mode) else {
        return false;
    };
    let lower = magnitude(lower);
    let upper = magnitude(upper);
    if 1000000000 < lower {
        return false;
    }
    if 1000000000 < upper {
        return false;
    }
    match mode {
        Mode::Lower => upper == 0,
        Mode::Upper => lower == 0,
        Mode::Both => true,
    }
}

// "5: a term's variable outside 1 to n or not above the one before, or a coefficient 0 or outside ±1,000,000." The two numbers come
// apart, since `statements` has them so: its other test needs the number of variables alone.
pub fn term_fits(variable: u32, size: u32, before: u32, variables: u32) -> bool
    ensures { result ≡ term_lawful variables before (record { variable = variable; weight = pos size }) }
{
    let numbers = Rising { before, variables };
    if !numbers.takes(variable) {
        return false;
    }
    (1..=1000000).contains(&size)
}

fn term_lawful(file: &[u8], at: usize, numbers: Rising) -> bool
    requires { at + 6 ≤ length file.now }
    ensures { result ≡ term_lawful numbers.variables numbers.before (term_at file.now at) }
{
    let size = magnitude(read_i32(file, at + 2));
    term_fits(read_u16(file, at), size, numbers.before, numbers.variables)
}

// Terms one behind the other. Each is read at its place, as the definition has it: out of a part of six bytes of its own (`chunks_exact`) its numbers would
// have to be carried to that place one by one.
pub fn terms_lawful(terms: &[u8], variables: u32) -> bool
    ensures { result ≡ terms_lawful variables (terms_at terms.now 0 (length terms.now / 6)) }
{
    let mut numbers = Rising {
        before: 0,
        variables,
    };
    for i in 0..terms.len() / 6 {
        let at = 6 * i;
        if !term_lawful(terms, at, numbers) {
            return false;
        }
        numbers.before = read_u16(terms, at);
    }
    true
}
