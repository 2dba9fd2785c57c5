// Numbers taken from the lent list as the walk asks for them, and the k-th of the words that are 0, which a pick points at.
// The list and how many of it are used come as two, since a list that is lent stays the same and no function needs to say so: with one struct of both each
// function that hands on or answers how many are used would have to promise that its list is still the same.
#![tactic(auto)]

ghost use Rattle.std.specs.Prelude.{◌≡◌, cond, ◌++◌, ◌+◌, ◌*◌, ◌/◌, ◌%◌, ◌≤◌, ◌<◌, length, get_or, slice_get, take, drop};
ghost use Rattle.plpb.specs.Numbers.{take_words, range, take_pick, start_words, start_of, bit};
ghost use Rattle.format.specs.Assignment.{bit_bytes};
ghost use Rattle.numbers.specs.Numbers.{numbers_of};
ghost use Rattle.numbers.specs.Taking.{taken_of, Starts};
ghost use Rattle.numbers.specs.Finding.{zero_words, zeros_below, rank};

// What was drawn, be it a place or the variable that stands there, and how many numbers are used after it.
#[derive(Clone, Copy, Debug, PartialEq, Eq)]
pub struct Drawn<T> {
    pub value: T,
    pub used: usize,
}

// Too few numbers are left, and so many are used.
#[derive(Clone, Copy, Debug, PartialEq, Eq)]
pub struct Short {
    pub used: usize,
}

// A number of the list is below this.
const RANGE: usize = 4294967296;

// A pick among m: numbers at or above the largest multiple of m up to RANGE are discarded. A number is below it exactly where the next multiple of m
// above it is no more than RANGE, so that each number takes one division.
pub fn pick(numbers: &[u8], used: usize, m: usize) -> Result<Drawn<usize>, Short>
    requires { (0 < m) × (m ≤ range) × (used ≤ length numbers.now / 4) }
    ensures { taken_of result ≡ take_pick m (numbers_of numbers.now) used }
{
    let end = numbers.len() / 4;
    for at in used..end {
        let r = words::word(numbers, at) as usize;
        let place = r % m;
        if r - place + m <= RANGE {
            return Ok(Drawn {
                value: place,
                used: at + 1,
            });
        }
    }
    Err(Short { used: end })
}

// A bit of a number, 0 being the lowest.
fn bit_of(number: u32, i: u32) -> u8
    requires { i < 32 }
    ensures { result ≡ cond (bit i number) 1 0 }
{
    ((number >> i) % 2) as u8
}

// The bit of a start for the variable at place i, 32 of them to a number.
fn start_bit(numbers: &[u8], used: usize, i: usize) -> u8
    requires { used + i / 32 < length numbers.now / 4 }
    ensures { result ≡ cond (bit (i % 32) (get_or (numbers_of numbers.now) (used + i / 32) 0)) 1 0 }
{
    bit_of(words::word(numbers, used + i / 32), (i % 32) as u32)
}

// Writes a start for which there are numbers enough. That it and the locks each go through the bytes is the library's loop: a function over a closure for
// both would say no more.
fn write_start(numbers: &[u8], used: usize, assignment: &mut [u8])
    requires { used + start_words (length assignment.old) ≤ length numbers.now / 4 }
    ensures { assignment.new
        ≡ bit_bytes (start_of (length assignment.old) (take (start_words (length assignment.old)) (drop used (numbers_of numbers.now)))) }
{
    for (i, byte) in assignment.iter_mut().enumerate() {
        *byte = start_bit(numbers, used, i);
    }
}

// A try's start for n variables; how many numbers are used after it. The numbers are counted first, so that none is taken and no byte changes where too few
// are left. n goes with the bytes, because what follows them is lent too and stays as it was. With a sub-slice from the caller, it and not this clause would
// have to say that the rest stays.
pub fn start(numbers: &[u8], used: usize, n: usize, assignment: &mut [u8]) -> Result<usize, Short>
    requires { (used ≤ length numbers.now / 4) × (n ≤ length assignment.old) }
    ensures { Starts n (take_words (start_words n) (numbers_of numbers.now) used) assignment.old result assignment.new }
{
    let after = used + n.div_ceil(32);
    if numbers.len() / 4 < after {
        return Err(Short { used });
    }
    write_start(numbers, used, &mut assignment[..n]);
    Ok(after)
}

// So many words are counted at once on the way to the block that has the word sought.
const FAR: usize = 64;

// So many are counted at once in the block that has it.
const NEAR: usize = 8;

// A place among words, and how many words that are 0 stand from it on before the one that is sought.
#[derive(Clone, Copy)]
struct Place {
    at: usize,
    left: usize,
}

// How many of the n words from a place on are 0. They are counted in 32 bits, as wide as a word, so that the processor tests and counts four at once: by a
// chain and `count`, which has 64 bits, it would be two.
fn zeros_among(table: &[u8], base: usize, at: usize, n: usize) -> usize
    requires { (4 * (base + at + n) ≤ length table.now) × (n < 4_294_967_296) }
    ensures { zeros_below table.now base at + result ≡ zeros_below table.now base (at + n) }
{
    let mut zeros: u32 = 0;
    for i in at..at + n {
        if words::word(table, base + i) == 0 {
            zeros += 1;
        }
    }
    zeros as usize
}

// Goes on by whole blocks, as long as the word that is sought is behind the next one: a whole block that is left has it.
fn pass_blocks(table: &[u8], base: usize, count: usize, from: Place, block: usize) -> Place
    requires { (4 * (base + count) ≤ length table.now) × (from.at ≤ count) × (0 < block) × (block < 4_294_967_296) }
    ensures { (result.at ≤ count) × (rank table.now base result ≡ rank table.now base from)
        × (result.at + block ≤ count → rank table.now base result < zeros_below table.now base (result.at + block)) }
{
    let mut place = from;
    while place.at + block <= count {
        let zeros = zeros_among(table, base, place.at, block);
        if place.left < zeros {
            return place;
        }
        place = Place {
            at: place.at + block,
            left: place.left - zeros,
        };
    }
    place
}

// The k-th, from 0, of the indices below count whose word, behind base others, is 0, if there are so many. The words are told by their indices, as the layout
// of the tables has them: a sub-slice would count bytes. A pick asks for one among hundreds of words, so those before it are passed by blocks, and only the
// last few one by one.
pub fn nth_zero(table: &[u8], base: usize, count: usize, k: usize) -> Option<usize>
    requires { 4 * (base + count) ≤ length table.now }
    ensures { result ≡ slice_get (zero_words table.now base count) k }
{
    let first = Place { at: 0, left: k };
    let far = pass_blocks(table, base, count, first, FAR);
    let near = pass_blocks(table, base, count, far, NEAR);
    (near.at..count)
        .filter(|&i| words::word(table, base + i) == 0)
        .nth(near.left)
}
