// The lines that the program prints, written into a lent buffer from its front. The buffer and the place in it stay two parameters, as in spelling.
// The room stands in each contract: the second line is written into what is left of the buffer, a slice, so that an array's type could not have it.
#![tactic(auto)]

ghost use Rattle.std.specs.Prelude.{◌≡◌, ◌+◌, ◌≤◌, ◌<◌, cond, [], ◌∷◌, ◌++◌, map, eqb, length, IfSome};
ghost use Rattle.std.specs.Option.{option_copied};
ghost use Rattle.words.specs.Writes.{front, put};
ghost use Rattle.lines.specs.Text.{digit as digitOf, decimal, signed_decimal, ending_of, ending_word, result_line, bits_line, refusal_line};

use spelling::put_decimal;

// The bytes that are lent for what the program prints.
pub const OUTPUT: usize = 2048;

const SPACE: u8 = b' ';

const LINE_FEED: u8 = b'\n';

// A line's first item, and what ends it. Answers the next place.
fn put_word(out: &mut [u8], word: &[u8], end: u8) -> usize
    requires { length word.now < length out.old }
    ensures { (out.new ≡ front (word.now ++ (end ∷ [])) out.old) × (result ≡ length word.now + 1) }
{
    words::copy(word, out);
    let at = word.len();
    out[at] = end;
    at + 1
}

// A number of 20 digits at most, and what ends it. Answers the next place.
fn put_number(out: &mut [u8], at: usize, n: u64, end: u8) -> usize
    requires { at + 21 ≤ length out.old }
    ensures { (out.new ≡ put at (decimal n ++ (end ∷ [])) out.old) × (result ≡ at + length (decimal n ++ (end ∷ [])))
        × (result ≤ at + 21) }
{
    let last = put_decimal(out, at, n);
    out[last] = end;
    last + 1
}

// A signed number of 64 bits, and what ends it. Answers the next place. The one of spelling has 32 bits, as a bound has: with 64 there, its caller would have
// to widen each bound, and what ends a number would still be put here.
fn put_signed(out: &mut [u8], at: usize, v: i64, end: u8) -> usize
    requires { at + 22 ≤ length out.old }
    ensures { (out.new ≡ put at (signed_decimal v ++ (end ∷ [])) out.old)
        × (result ≡ at + length (signed_decimal v ++ (end ∷ []))) × (result ≤ at + 22) }
{
    let n = v.unsigned_abs();
    if v < 0 {
        out[at] = b'-';
        return put_number(out, at + 1, n, end);
    }
    put_number(out, at, n, end)
}

// An ending's word: 1 is floor, 2 ended, 3 none, 4 short-found, 5 short-none.
// The numbers are those of the answer that the C interface hands out.
fn put_ending(out: &mut [u8], ending: u32) -> usize
    requires { 12 ≤ length out.old }
    ensures { (out.new ≡ front (ending_word (ending_of ending) ++ (32 ∷ [])) out.old)
        × (result ≡ length (ending_word (ending_of ending) ++ (32 ∷ []))) × (result ≤ 12) }
{
    match ending {
        1 => put_word(out, b"floor", SPACE),
        2 => put_word(out, b"ended", SPACE),
        3 => put_word(out, b"none", SPACE),
        4 => put_word(out, b"short-found", SPACE),
        _ => put_word(out, b"short-none", SPACE),
    }
}

// The first line of an answer. Answers its length. What a search answers is a struct of the crate above, as the C interface hands it out: one here would be
// filled from it field by field at the one call.
pub fn result_line(
    out: &mut [u8],
    ending: u32,
    cost: i64,
    finds: u64,
    flips: u64,
    used: u64,
) -> usize
    requires { 1_024 ≤ length out.old }
    ensures { (out.new ≡ front (result_line (ending_of ending) cost finds flips used) out.old)
        × (result ≡ length (result_line (ending_of ending) cost finds flips used)) }
{
    let a = put_ending(out, ending);
    let b = put_signed(out, a, cost, SPACE);
    let c = put_number(out, b, finds, SPACE);
    let d = put_number(out, c, flips, SPACE);
    put_number(out, d, used, LINE_FEED)
}

// The character of an assignment byte.
fn bit_digit(b: u8) -> u8
    ensures { result ≡ cond (eqb b 0) (digitOf 0) (digitOf 1) }
{
    b'0' + u8::from(b != 0)
}

// One of the two has to go by the index. After a loop over `iter_mut` with a `zip` the library says nothing of what the buffer holds, so the loop is over the
// bits and the buffer goes by the index.
fn put_bits(out: &mut [u8], bits: &[u8])
    requires { length bits.now ≤ length out.old }
    ensures { out.new ≡ front (map (λ b. cond (eqb b 0) (digitOf 0) (digitOf 1)) bits.now) out.old }
{
    for (i, &bit) in bits.iter().enumerate() {
        out[i] = bit_digit(bit);
    }
}

// The second line: the assignment bytes where something was found. Answers its length.
pub fn assignment_line(out: &mut [u8], found: Option<&[u8]>) -> usize
    requires { (1_024 ≤ length out.old) × IfSome found (λ bits. length bits.now ≤ 512) }
    ensures { (out.new ≡ front (bits_line (option_copied found.entry)) out.old)
        × (result ≡ length (bits_line (option_copied found.entry))) }
{
    let Some(bits) = found else {
        return put_word(out, b"-", LINE_FEED);
    };
    put_bits(out, bits);
    let n = bits.len();
    out[n] = LINE_FEED;
    n + 1
}

// A refusal's line. Answers its length.
pub fn refusal_line(out: &mut [u8], number: u32, offset: usize) -> usize
    requires { 1_024 ≤ length out.old }
    ensures { (out.new ≡ front (refusal_line number offset) out.old) × (result ≡ length (refusal_line number offset)) }
{
    let a = put_word(out, b"refused", SPACE);
    let b = put_number(out, a, u64::from(number), SPACE);
    put_number(out, b, offset as u64, LINE_FEED)
}
