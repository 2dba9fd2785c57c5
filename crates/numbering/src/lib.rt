// New numbers for the unlocked variables of a plan file: "renumber the unlocked variables (all kept) by rising number".
// Map and list are lent one by one to be written, whole, since the lengths that are asked of them are those of the full limits.
#![tactic(auto)]

ghost use Rattle.std.specs.Prelude.{◌≡◌, [], ◌∷◌, ℕ, ◌+◌, ◌*◌, ◌≤◌, ◌<◌, length};
ghost use Rattle.plpb.specs.Lists.{row, keep};
ghost use Rattle.words.specs.Words.{word_at, word_bytes};
ghost use Rattle.words.specs.Writes.{put_words};
ghost use Rattle.format.specs.Limits.{max_variables};
ghost use Rattle.format.specs.Tables.{pad_to};
ghost use Rattle.tables.specs.Places.{plan_of_file};
ghost use Rattle.squeezed.specs.Squeezed.{becomes, unlocked};
ghost use Rattle.fates.specs.Codes.{decoded, map_size};
ghost use Rattle.numbering.specs.Numbered.{code_in, Numbered, is_number, list_one};

use fates::map::{Code, Map};
use tables::Lawful;

// The word of a map that says what becomes of a variable.
fn code_of(lock: Option<bool>, number: u32) -> u32
    ensures { result ≡ code_in lock number }
{
    match lock {
        None => number,
        Some(true) => fates::ON,
        Some(false) => fates::OFF,
    }
}

// How many variables there are goes with a map, since a map has a word for each number that there may be.

// Turns the words of the locks of n variables into their codes; it answers how many are unlocked.
fn number(map: &mut [u8], n: usize) -> u32
    requires { (n ≤ max_variables) × (map_size ≤ length map.old) }
    ensures { Numbered map.old n map.new result }
{
    let mut free: u32 = 0;
    for x in 1..=n {
        let lock = format::lock_of(words::word(map, x));
        free += u32::from(lock.is_none());
        words::write_word(map, x, code_of(lock, free));
    }
    free
}

// Fills a map from a file; it answers how many variables are unlocked.
pub fn fill(lawful: Lawful<'_>, map: &mut [u8]) -> u32
    requires map_len { length map.old ≡ map_size }
    ensures { ((x : ℕ) → decoded map.new x ≡ becomes (plan_of_file lawful.entry.file.now) x)
        × (result ≡ length (unlocked (plan_of_file lawful.entry.file.now))) }
{
    words::write_word(map, 0, 0);
    lawful.lock_section(&mut map[4..fates::MAP]);
    number(map, words::read_size(lawful.file, 3))
}

// Writes a variable at an index of a list if it has a new number; it answers the next index.
fn list_one(map: Map<'_>, x: usize, list: &mut [u8], i: usize) -> usize
    requires { (x ≤ max_variables) × (4 * i + 4 ≤ length list.old) }
    ensures { (list.new ≡ put_words i (list_one map.entry.words.now x) list.old)
        × (result ≡ i + length (list_one map.entry.words.now x)) }
{
    match map.code(x) {
        Code::Locked(_) => i,
        Code::New(_) => {
            words::write_word(list, i, words::narrow(x));
            i + 1
        }
    }
}

// "in a lent list, which old variable each new one was, 0 in unused places". Their number goes with the map here too. The index
// goes on behind the loop, where the list is cleared from it on.
pub fn list_old(map: Map<'_>, n: usize, list: &mut [u8])
    requires { (n ≤ max_variables) × (length list.old ≡ 4 * max_variables) }
    ensures { list.new ≡ word_bytes (pad_to 512 (keep (λ x. is_number (word_at map.entry.words.now x)) (row 1 n))) }
{
    let mut i = 0;
    for x in 1..=n {
        i = list_one(map, x, list, i);
    }
    let end = 4 * i;
    words::clear(&mut list[end..]);
}
