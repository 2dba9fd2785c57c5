// A rule's entry in the table: its first term, how many it has, and its two bounds where it has them.
ghost use Rattle.std.specs.Prelude.{◌≡◌, ◌+◌, ◌*◌, ◌≤◌, length};
ghost use Rattle.counting.specs.Bound.{bound_of};
ghost use Rattle.words.specs.Words.{word_at, signed};
ghost use Rattle.format.specs.File.{bound_of as bound_in};
ghost use Rattle.format.specs.Modes.{mode_number};
ghost use Rattle.rules.specs.Rules.{EntryAt};

use format::Mode;
use words::{index, to_signed, word};

#[derive(Clone, Copy)]
pub struct Entry {
    pub first: usize,
    pub count: usize,
    pub lower: Option<i32>,
    pub upper: Option<i32>,
}

// The bound in a word of the table, which a rule of one mode is without. The rule's own mode is a word of any table, and so any number: one that is no mode has
// both bounds.
fn read_bound(tables: &[u8], at: usize, mode: u32, without: Mode) -> Option<i32>
    requires { 4 * at + 4 ≤ length tables.now }
    ensures { bound_of result ≡ bound_in (mode_number without) mode (signed (word_at tables.now at)) }
{
    (mode != without as u32).then_some(to_signed(word(tables, at)))
}

// The entry whose five words begin at a word of the table.
pub fn read_entry(tables: &[u8], at: usize) -> Entry
    requires { 4 * at + 20 ≤ length tables.now }
    ensures { EntryAt (word_at tables.now) at result }
{
    let mode = word(tables, at + 2);
    Entry {
        first: index(tables, at),
        count: index(tables, at + 1),
        lower: read_bound(tables, at + 3, mode, Mode::Upper),
        upper: read_bound(tables, at + 4, mode, Mode::Lower),
    }
}
