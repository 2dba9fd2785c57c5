// What becomes of a rule.
ghost use Rattle.std.specs.Prelude.{◌≡◌, ◌+◌, ◌≤◌, nat_abs, ◌-ℤ◌, length};
ghost use Rattle.words.specs.Words.{num_at, signed};
ghost use Rattle.format.specs.Limits.{max_bound};
ghost use Rattle.format.specs.File.{field_terms, rule_at};
ghost use Rattle.squeezed.specs.Squeezed.{put_in};
ghost use Rattle.fates.specs.Maps.{codes};
ghost use Rattle.fates.specs.Parts.{terms_of};
ghost use Rattle.fates.specs.Rules.{RuleFits, Fated, max_total};

use crate::bounds::{Bounds, by_mode, left};
use crate::map::Map;
use crate::terms::Terms;

// The terms of the rule at a place.
fn terms<'a>(file: &'a [u8], at: usize, map: Map<'a>) -> Terms<'a>
    requires { RuleFits file.now at }
    ensures { (result.map ≡ map.entry) × (terms_of result ≡ field_terms file.now at) }
{
    let count = tables::fields::terms_of(file, at);
    Terms {
        file,
        from: at + 12,
        count,
        map,
    }
}

// The bound at a place, less what the locked variables give.
fn less(file: &[u8], at: usize, given: i32) -> i32
    requires { (at + 4 ≤ length file.now) × (nat_abs (signed (num_at 4 file.now at)) ≤ max_bound) × (nat_abs given ≤ max_total) }
    ensures { result ≡ signed (num_at 4 file.now at) -ℤ given }
{
    integers::minus(words::read_i32(file, at), given)
}

// What is left of the bounds of the rule at a place, nothing where no values can meet it.
pub fn fate(file: &[u8], at: usize, map: Map<'_>) -> Option<Bounds>
    requires { RuleFits file.now at }
    ensures { Fated result (put_in (codes map.entry) (rule_at file.now at)) }
{
    let terms = terms(file, at, map);
    let given = terms.given();
    let lower = less(file, at + 4, given);
    let upper = less(file, at + 8, given);
    let bounds = by_mode(file[at + 3], lower, upper);
    left(bounds, terms.least(), terms.greatest())
}
