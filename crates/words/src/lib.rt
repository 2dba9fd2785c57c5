// Numbers in byte slices, little-endian: "All numbers are little-endian; coefficients and bounds are signed 32-bit, the rest unsigned." A slice and a
// place in it go one by one, and the place is bounded by a clause, as where the library reads a byte by its index: each caller works the place out anew.
#![tactic(auto)]

ghost use Rattle.std.specs.Prelude.{◌≡◌, [], ◌∷◌, ◌++◌, ◌+◌, ◌*◌, ◌≤◌, ◌<◌};
ghost use Rattle.std.specs.Prelude.{length, drop, replicate, nat_abs};
ghost use Rattle.words.specs.Words.{num_at, bytes_of, word_at, signed, unsigned};
ghost use Rattle.words.specs.Writes.{put, put_words};
ghost use Rattle.words.specs.Tests.{Decides, ZeroWords};

// The number of 2 bytes at a place. The library has a `from_le_bytes` for each size, on an array of its own, so that a size as a const parameter would be
// matched once more inside.
pub fn read_u16(s: &[u8], at: usize) -> u32
    requires { at + 2 ≤ length s.now }
    ensures { result ≡ num_at 2 s.now at }
{
    u32::from(u16::from_le_bytes([s[at], s[at + 1]]))
}

// The number of 4 bytes at a place. The compiler makes one load of it.
pub fn read_u32(s: &[u8], at: usize) -> u32
    requires { at + 4 ≤ length s.now }
    ensures { result ≡ num_at 4 s.now at }
{
    u32::from_le_bytes([s[at], s[at + 1], s[at + 2], s[at + 3]])
}

// A length, a count or a place as a word of a table. It is `as` and no more, but proofs cite its clause: what a word holds.
pub fn narrow(n: usize) -> u32
    requires { n < 4_294_967_296 }
    ensures { result ≡ n }
{
    n as u32
}

// The number of 2 bytes as a size or a count.
pub fn read_size(s: &[u8], at: usize) -> usize
    requires { at + 2 ≤ length s.now }
    ensures { result ≡ num_at 2 s.now at }
{
    read_u16(s, at) as usize
}

// The word at an index of a table.
pub fn word(s: &[u8], i: usize) -> u32
    requires { 4 * i + 4 ≤ length s.now }
    ensures { result ≡ word_at s.now i }
{
    read_u32(s, 4 * i)
}

// The word at an index as a count or an index.
pub fn index(s: &[u8], i: usize) -> usize
    requires { 4 * i + 4 ≤ length s.now }
    ensures { result ≡ word_at s.now i }
{
    word(s, i) as usize
}

// The signed number that a word stands for. This method of the library and the two after it have names of the tables' own, for their clauses say what
// they give in the words of the plan file, where the library's say it in those of the machine.
pub fn to_signed(n: u32) -> i32
    ensures { result ≡ signed n }
{
    n.cast_signed()
}

// The word that stands for a signed number.
pub fn to_unsigned(v: i32) -> u32
    ensures { result ≡ unsigned v }
{
    v.cast_unsigned()
}

// A signed number's size without its sign.
pub fn magnitude(v: i32) -> u32
    ensures { result ≡ nat_abs v }
{
    v.unsigned_abs()
}

// The signed number of 4 bytes at a place.
pub fn read_i32(s: &[u8], at: usize) -> i32
    requires { at + 4 ≤ length s.now }
    ensures { result ≡ signed (num_at 4 s.now at) }
{
    to_signed(read_u32(s, at))
}

// Writes a number's 4 bytes at a place.
pub fn write_u32(s: &mut [u8], at: usize, v: u32)
    requires { at + 4 ≤ length s.old }
    ensures { s.new ≡ put at (bytes_of 4 v) s.old }
{
    s[at..at + 4].copy_from_slice(&v.to_le_bytes());
}

// Writes a word at an index of a table.
pub fn write_word(s: &mut [u8], i: usize, v: u32)
    requires { 4 * i + 4 ≤ length s.old }
    ensures { s.new ≡ put_words i (v ∷ []) s.old }
{
    write_u32(s, 4 * i, v);
}

// Writes two words from an index on.
pub fn write_two(s: &mut [u8], i: usize, a: u32, b: u32)
    requires { 4 * i + 8 ≤ length s.old }
    ensures { s.new ≡ put_words i (a ∷ b ∷ []) s.old }
{
    write_word(s, i, a);
    write_word(s, i + 1, b);
}

// Whether the words from an index on and before another are 0: the tables' sections begin and end at words, where a sub-slice would count bytes. It does
// not stop at the first that is not: without a way out the loop is compiled to 16 bytes at a time.
pub fn zeros(s: &[u8], from: usize, end: usize) -> bool
    requires { 4 * end ≤ length s.now }
    ensures { Decides result (ZeroWords s.now from end) }
{
    let mut all = true;
    for i in from..end {
        all &= word(s, i) == 0;
    }
    all
}

// Copies a slice over the first bytes of another, a byte at a time: the library's copy would have an archive for C programs ask for `memmove` from outside.
pub fn copy(from: &[u8], to: &mut [u8])
    requires { length from.now ≤ length to.old }
    ensures { to.new ≡ from.now ++ drop (length from.now) to.old }
{
    for i in 0..from.len() {
        to[i] = from[i];
    }
}

// Fills a slice with 0. The clause of the library's `fill` is on clones: where a number's clone is the number, the bytes are these. That premise is met
// here, and a caller that wants the bytes themselves cites them.
pub fn clear(s: &mut [u8])
    ensures { s.new ≡ replicate (length s.old) 0 }
{
    s.fill(0);
}

// Writes the 2 low bytes of a number at a place.
// It and `write_u32` are no one function over the number of bytes: a word is written with all its bytes, and here it is a length, of which the low ones are.
pub fn write_u16(s: &mut [u8], at: usize, v: usize)
    requires { at + 2 ≤ length s.old }
    ensures { s.new ≡ put at (bytes_of 2 v) s.old }
{
    s[at..at + 2].copy_from_slice(&v.to_le_bytes()[..2]);
}
