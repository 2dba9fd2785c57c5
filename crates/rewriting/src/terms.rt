// The terms that are left of a field, one behind the other.
ghost use Rattle.std.specs.Prelude.{◌≡◌, true, [], ◌∷◌, ◌+◌, ◌*◌, ◌≤◌, length};
ghost use Rattle.words.specs.Words.{num_at};
ghost use Rattle.words.specs.Writes.{put};
ghost use Rattle.format.specs.Limits.{max_variables};
ghost use Rattle.format.specs.File.{term_at, terms_at};
ghost use Rattle.fates.specs.Maps.{codes};
ghost use Rattle.fates.specs.Sums.{small_terms};
ghost use Rattle.rewriting.specs.Written.{terms_written};

use fates::map::{Code, Map};

// File and place stay two parameters: the file is written while the map is only read, and a struct that held it would have to say in each contract that it is
// still the same one. A count goes with them, because terms are stated by their place in the whole file.

// Writes a term at a place if it stays; it answers the place behind.
fn keep_term(file: &mut [u8], at: usize, map: Map<'_>, to: usize) -> usize
    requires { (at + 6 ≤ length file.old) × (num_at 2 file.old at ≤ max_variables) × (to ≤ at) }
    ensures { (file.new ≡ put to (terms_written (codes map.entry) (term_at file.old at ∷ [])) file.old)
        × (result ≡ to + length (terms_written (codes map.entry) (term_at file.old at ∷ []))) }
{
    match map.code(words::read_size(file, at)) {
        Code::Locked(_) => to,
        Code::New(number) => {
            let weight = words::read_u32(file, at + 2);
            fields::put_term(file, to, number as usize, weight);
            to + 6
        }
    }
}

// Writes the terms that stay of some, from a place on that is not behind them; it answers the place behind.
pub fn keep_terms(file: &mut [u8], from: usize, count: usize, map: Map<'_>, to: usize) -> usize
    requires { (from + 6 * count ≤ length file.old) × (small_terms (terms_at file.old from count) ≡ true) × (to ≤ from) }
    ensures { (file.new ≡ put to (terms_written (codes map.entry) (terms_at file.old from count)) file.old)
        × (result ≡ to + length (terms_written (codes map.entry) (terms_at file.old from count))) }
{
    let mut end = to;
    for i in 0..count {
        end = keep_term(file, from + 6 * i, map, end);
    }
    end
}
