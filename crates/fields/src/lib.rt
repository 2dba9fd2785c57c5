// The fields of a plan file, written at a place of a buffer: a head, a rule's bounds, a term. The mapper's file and a squeezed one are
// written of them.
// Buffer and place are two parameters: a struct that held the buffer would have to say in each contract that it is still the same one.
#![tactic(auto)]

ghost use Rattle.std.specs.Prelude.{◌≡◌, [], ◌∷◌, ◌++◌, ◌+◌, ◌≤◌, ◌<◌, length};
ghost use Rattle.words.specs.Words.{bytes_of};
ghost use Rattle.words.specs.Writes.{put};

use format::Tag;

// One byte.
fn put_byte(s: &mut [u8], at: usize, b: u8)
    requires { at < length s.old }
    ensures { s.new ≡ put at (b ∷ []) s.old }
{
    s[at] = b;
}

// "Fields: a one-byte tag, a two-byte length, the body." The tag comes as the byte that is written, as a mode does: a caller names it by `Tag`, and the
// contract the byte. With a `Tag` each contract would turn it into that byte by a law of the cast.
pub fn put_head(s: &mut [u8], at: usize, tag: u8, size: usize)
    requires { at + 3 ≤ length s.old }
    ensures { s.new ≡ put at (tag ∷ bytes_of 2 size) s.old }
{
    put_byte(s, at, tag);
    words::write_u16(s, at + 1, size);
}

// A rule's head.
fn put_rule_head(s: &mut [u8], at: usize, size: usize, mode: u8)
    requires { at + 4 ≤ length s.old }
    ensures { s.new ≡ put at (4 ∷ bytes_of 2 size ++ (mode ∷ [])) s.old }
{
    put_head(s, at, Tag::Rule as u8, size);
    put_byte(s, at + 3, mode);
}

// Two numbers, one behind the other.
fn put_two(s: &mut [u8], at: usize, lower: u32, upper: u32)
    requires { at + 8 ≤ length s.old }
    ensures { s.new ≡ put at (bytes_of 4 lower ++ bytes_of 4 upper) s.old }
{
    words::write_u32(s, at, lower);
    words::write_u32(s, at + 4, upper);
}

// A rule's head and the first of its body: mode and bounds.
// Mode and bounds come as the numbers that are written: the mapper's are unsigned and the upper one is always there, a squeezed rule's are signed and each may
// be absent, so that each caller has its own byte for the mode.
pub fn put_bounds(s: &mut [u8], at: usize, size: usize, mode: u8, lower: u32, upper: u32)
    requires { at + 12 ≤ length s.old }
    ensures { s.new ≡ put at (4 ∷ bytes_of 2 size ++ (mode ∷ []) ++ (bytes_of 4 lower ++ bytes_of 4 upper)) s.old }
{
    put_rule_head(s, at, size, mode);
    put_two(s, at + 4, lower, upper);
}

// "A term is a variable number (2 bytes) and a coefficient (4)."
pub fn put_term(s: &mut [u8], at: usize, variable: usize, weight: u32)
    requires { at + 6 ≤ length s.old }
    ensures { s.new ≡ put at (bytes_of 2 variable ++ bytes_of 4 weight) s.old }
{
    words::write_u16(s, at, variable);
    words::write_u32(s, at + 2, weight);
}
