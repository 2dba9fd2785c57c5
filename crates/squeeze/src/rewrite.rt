// The whole file rewritten in its own buffer.
ghost use Rattle.std.specs.Prelude.{◌≡◌, [], ◌++◌, ◌+◌, ◌-◌, ◌≤◌, length, replicate};
ghost use Rattle.words.specs.Writes.{put};
ghost use Rattle.format.specs.Writer.{field};
ghost use Rattle.format.specs.Tables.{pad_to};
ghost use Rattle.tables.specs.Places.{Accepts, plan_of_file};
ghost use Rattle.fates.specs.Maps.{codes};
ghost use Rattle.squeeze.specs.Rewritten.{front_bytes, file_bytes};

use fates::map::Map;
use format::Tag;
use rewriting::{rules, terms};

// File and map stay parameters of their own: the file is written, and a struct that held it would have to say in each contract that it is still the same one.

// Rewrites the fields before the clauses, the last of them first; it answers the place behind them.
fn put_front(file: &mut [u8], map: Map<'_>, variables: u32) -> usize
    requires accepts { Accepts file.old }
    ensures { (file.new ≡ put 0 (front_bytes (codes map.entry) variables (plan_of_file file.old)) file.old)
        × (result ≡ length (front_bytes (codes map.entry) variables (plan_of_file file.old))) }
{
    let count = words::read_size(file, 6) / 6;
    let end = terms::keep_terms(file, 8, count, map, 8);
    fields::put_head(file, 5, Tag::Objective as u8, end - 8);
    words::write_u16(file, 3, variables as usize);
    fields::put_head(file, 0, Tag::Variables as u8, 2);
    end
}

// Writes the end at a place; it answers the place behind. "Bytes after the new end are 0."
fn put_end(file: &mut [u8], at: usize) -> usize
    requires { at + 3 ≤ length file.old }
    ensures { (file.new ≡ put at (field 5 [] ++ replicate (length file.old - (at + 3)) 0) file.old)
        × (result ≡ at + 3) }
{
    fields::put_head(file, at, Tag::End as u8, 0);
    let end = at + 3;
    words::clear(&mut file[end..]);
    end
}

// Rewrites the file of a plan; it answers the new length.
pub fn rewrite(file: &mut [u8], map: Map<'_>, variables: u32) -> usize
    requires accepts { Accepts file.old }
    ensures { (file.new ≡ pad_to (length file.old)
        (file_bytes (codes map.entry) variables (plan_of_file file.old)))
        × (result ≡ length (file_bytes (codes map.entry) variables (plan_of_file file.old))) }
{
    let first = tables::fields::first_clause(file);
    let front = put_front(file, map, variables);
    let end = rules::keep_clauses(file, first, map, front);
    put_end(file, end)
}
