// What the program prints for the contents of its three files (document 01, "The program and its two lines").
// The buffers to write come one by one: one is read while another is written, which a struct of them would not let be proved.
#![tactic(auto)]

ghost use Rattle.std.specs.Prelude.{◌≡◌, ◌≤◌, length};
ghost use Rattle.words.specs.Writes.{front};
ghost use Rattle.format.specs.Tables.{table_size, term_size};
ghost use Rattle.respond.specs.Program.{output};
ghost use Rattle.lines.specs.Text.{output_size};

use folder::files::any_too_long;
use lines::refusal_line;
use report::respond_loaded;
use tables::load;

// What is printed, whole: it is written into `out` from its front. `more` says that one of the files has bytes behind those given. The promise (`output more
// plan walk numbers`) has one flag and three lists of bytes, and it stays.
pub fn respond(
    plan: &[u8],
    walk: &[u8],
    numbers: &[u8],
    more: bool,
    tables: &mut [u8],
    terms: &mut [u8],
    out: &mut [u8],
) -> usize
    requires { (table_size ≤ length tables.old) × (term_size ≤ length terms.old) × (output_size ≤ length out.old) }
    ensures { (out.new ≡ front (output more plan.now walk.now numbers.now) out.old)
        × (result ≡ length (output more plan.now walk.now numbers.now)) }
{
    if any_too_long(more, plan, walk, numbers) {
        return refusal_line(out, 9, 0);
    }
    match load(plan, tables, terms) {
        Err(refusal) => refusal_line(out, refusal.number, refusal.offset),
        Ok(()) => respond_loaded(tables, terms, walk, numbers, out),
    }
}
