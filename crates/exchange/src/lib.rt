// A race's settings are read from, and its answer is written to, its place in a buffer that has one for each race.
#![tactic(auto)]

ghost use Rattle.std.specs.Prelude.{◌≡◌, ◌+◌, ◌*◌, ◌≤◌, length};
ghost use Rattle.words.specs.Writes.{front, put_words};
ghost use Rattle.exchange.specs.Exchange.{settings_size, answer_size, settings_at, bits_of64, halves, answer_bytes};

use answers::Answer;
use settings::Settings;
use words::{word, write_two};

// The bytes of a race's settings, and of its answer.
pub const SETTINGS: usize = 24;

pub const ANSWER: usize = 40;

// The settings of race i, from 0. They are six words, each told by its index in the whole buffer, as `word` takes it: a part of the slice would be cut at two
// places in bytes first.
pub fn settings_at(settings: &[u8], i: usize) -> Settings
    requires { settings_size * i + settings_size ≤ length settings.now }
    ensures { result ≡ settings_at settings.now i }
{
    Settings {
        noise: word(settings, 6 * i),
        tries: word(settings, 6 * i + 1),
        flips: word(settings, 6 * i + 2),
        mode: word(settings, 6 * i + 3),
        heuristic: word(settings, 6 * i + 4),
        chance: word(settings, 6 * i + 5),
    }
}

// The number whose 64 bits stand for a signed one: the library's method, under the word of the clause that the answer's bytes cite.
fn bits(v: i64) -> u64
    ensures { result ≡ bits_of64 v }
{
    v.cast_unsigned()
}

// Writes a number's bytes, which are two words, from an index on.
fn put_number(s: &mut [u8], i: usize, v: u64)
    requires { 4 * i + 8 ≤ length s.old }
    ensures { s.new ≡ put_words i (halves v) s.old }
{
    s[4 * i..4 * i + 8].copy_from_slice(&v.to_le_bytes());
}

// Writes what a search answers over the first bytes of a slice.
pub fn put_answer(s: &mut [u8], r: Answer)
    requires { answer_size ≤ length s.old }
    ensures { s.new ≡ front (answer_bytes r) s.old }
{
    write_two(s, 0, r.refusal, r.ending);
    put_number(s, 2, bits(r.cost));
    put_number(s, 4, r.finds as u64);
    put_number(s, 6, r.flips as u64);
    put_number(s, 8, r.used as u64);
}
