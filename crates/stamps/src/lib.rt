// The numbers of the variables' last flips in a try, kept in words behind the marks of the choice (T-09): 0 for a variable that the try has not flipped.
// 0 is not made an `Option`: the documents' ranking compares these numbers (`is_older`, `latest`, `is_newest` of plpb), and 0 is the word that the marks keep.
// Each function asks once that the marks have room. Their callers hold the marks as bytes, with facts of their own of which this is a part, so that a struct of
// the bytes and their room would be made for each call.
#![tactic(auto)]

ghost use Rattle.std.specs.Prelude.{◌≡◌, ◌≤◌, length};
ghost use Rattle.words.specs.Writes.{Wrote};
ghost use Rattle.format.specs.Limits.{max_variables};
ghost use Rattle.format.specs.Layout.{mark_size, stamp_at};
ghost use Rattle.stamps.specs.Stamps.{stamp_in, unstamped};

use words::{clear, word, write_word};

// The number of a variable's last flip.
pub fn last_flip(marks: &[u8], x: u32) -> u32
    requires { (x ≤ max_variables) × (mark_size ≤ length marks.now) }
    ensures { result ≡ stamp_in marks.now x }
{
    word(marks, format::STAMPS + x as usize)
}

// A variable is flipped: the flip's number is its last one.
pub fn stamp(marks: &mut [u8], x: u32, number: u32)
    requires { (x ≤ max_variables) × (mark_size ≤ length marks.old) }
    ensures { Wrote (stamp_at x) number marks.old marks.new }
{
    write_word(marks, format::STAMPS + x as usize, number);
}

// A try begins: none is flipped.
pub fn clear_stamps(marks: &mut [u8])
    requires { mark_size ≤ length marks.old }
    ensures { marks.new ≡ unstamped marks.old }
{
    clear(&mut marks[format::STAMP_BYTE..format::MARKS]);
}
