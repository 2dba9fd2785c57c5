// What a search answers, and the two lines of it.
#![tactic(auto)]

ghost use Rattle.std.specs.Prelude.{◌≡◌, ◌++◌, ◌≤◌, length};
ghost use Rattle.words.specs.Words.{word_at};
ghost use Rattle.words.specs.Writes.{front};
ghost use Rattle.answers.specs.Found.{has_plan};
ghost use Rattle.lines.specs.Text.{ending_of, result_line, assignment_line, output_size};

use lines::{assignment_line, result_line};
use words::index;

// What a search answers: its ending by number, 0 with a refusal; then all else is 0 too. The C interface hands it out as it stands.
#[repr(C)]
#[derive(Clone, Copy)]
pub struct Answer {
    pub refusal: u32,
    pub ending: u32,
    pub cost: i64,
    pub finds: usize,
    pub flips: usize,
    pub used: usize,
}

// Whether an ending comes with a plan: by its number, as the answer for C has it.
fn is_found(ending: u32) -> bool
    ensures { result ≡ has_plan ending }
{
    matches!(ending, 1 | 2 | 4)
}

// The lines of a search's answer. Answers their length.
pub fn write_answer(tables: &[u8], assignment: &[u8], r: Answer, out: &mut [u8]) -> usize
    requires { (4 ≤ length tables.now) × (word_at tables.now 0 ≤ 512) × (word_at tables.now 0 ≤ length assignment.now)
        × (output_size ≤ length out.old) }
    ensures { (out.new
        ≡ front (result_line (ending_of r.ending) r.cost r.finds r.flips r.used
        ++ assignment_line (has_plan r.ending) (word_at tables.now 0) assignment.now) out.old)
        × (result ≡ length (result_line (ending_of r.ending) r.cost r.finds r.flips r.used
        ++ assignment_line (has_plan r.ending) (word_at tables.now 0) assignment.now)) }
{
    let first = result_line(
        out,
        r.ending,
        r.cost,
        r.finds as u64,
        r.flips as u64,
        r.used as u64,
    );
    let n = index(tables, 0);
    let bits = is_found(r.ending).then_some(&assignment[..n]);
    let second = assignment_line(&mut out[first..], bits);
    first + second
}
