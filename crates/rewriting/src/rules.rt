// The rules and clauses that are left, one behind the other.
ghost use Rattle.std.specs.Prelude.{◌≡◌, List, [], ◌∷◌, ◌++◌, ℕ, ◌+◌, ◌≤◌, length};
ghost use Rattle.plpb.specs.Plan.{Clause};
ghost use Rattle.counting.specs.Bound.{bound_of as as_bound};
ghost use Rattle.words.specs.Words.{bytes_of, unsigned};
ghost use Rattle.format.specs.File.{field_terms, rule_at};
ghost use Rattle.format.specs.Writer.{field, mode, bound_number};
ghost use Rattle.fates.specs.Maps.{codes};
ghost use Rattle.fates.specs.Rules.{RuleFits};
ghost use Rattle.fates.specs.Rest.{Rest, Reads, Begins};
ghost use Rattle.rewriting.specs.Written.{terms_written, rules_written};
ghost use Rattle.rewriting.specs.Moved.{Laid, RulesMoved, ClauseMoved, ClausesMoved};

use crate::terms;
use fates::bounds::Bounds;
use fates::map::Map;
use fates::{clause, rule};
use format::{Mode, Tag};

// The byte that the file has for the bounds that are left. A rule that is kept has one of the three modes; the bytes of a rule are defined for one without
// bounds too, as 0.
fn mode(left: Bounds) -> u8
    ensures { result ≡ mode (as_bound left.lower) (as_bound left.upper) }
{
    match (left.lower, left.upper) {
        (None, None) => 0,
        (Some(_), None) => Mode::Lower as u8,
        (None, Some(_)) => Mode::Upper as u8,
        (Some(_), Some(_)) => Mode::Both as u8,
    }
}

// "an absent bound is written 0"
fn number(bound: Option<i32>) -> u32
    ensures { result ≡ unsigned (bound_number (as_bound bound)) }
{
    words::to_unsigned(bound.unwrap_or(0))
}

// As with terms, file, places and map stay parameters: the file is written between the reads. Reading and writing are at two places, and that the second is
// not behind the first goes with each call: a call moves one of the two and the loop that makes it the other, so that a struct of both would be taken apart
// and made again at each of them. Each walk over rules or clauses is a loop of its own, and a byte is compared with a tag's own number, for the reasons that
// the head of `tables::fields` gives.

// Writes a rule with the bounds and terms that are left of another at a place; it answers the place behind.
fn put_rule(file: &mut [u8], at: usize, map: Map<'_>, to: usize, left: Bounds) -> usize
    requires { RuleFits file.old at × (to ≤ at) }
    ensures { Laid file.old to
        (field 4 (mode (as_bound left.lower) (as_bound left.upper)
        ∷ (bytes_of 4 (unsigned (bound_number (as_bound left.lower)))
        ++ (bytes_of 4 (unsigned (bound_number (as_bound left.upper)))
        ++ terms_written (codes map.entry) (field_terms file.old at)))))
        file.new result }
{
    let count = tables::fields::terms_of(file, at);
    let end = terms::keep_terms(file, at + 12, count, map, to + 12);
    fields::put_bounds(
        file,
        to,
        end - to - 3,
        mode(left),
        number(left.lower),
        number(left.upper),
    );
    end
}

// Writes what is left of a rule, if anything is.
fn keep_rule(file: &mut [u8], at: usize, map: Map<'_>, to: usize) -> usize
    requires { RuleFits file.old at × (to ≤ at) }
    ensures { Laid file.old to (rules_written (codes map.entry) (rule_at file.old at ∷ []))
        file.new result }
{
    match rule::fate(file, at, map) {
        None => to,
        Some(left) => put_rule(file, at, map, to, left),
    }
}

// Where reading and writing are behind a clause: the answer of a call that moves both.
#[derive(Clone, Copy)]
pub struct Places {
    pub at: usize,
    pub to: usize,
}

// Writes what is left of the rules of a clause.
fn keep_rules(file: &mut [u8], from: usize, map: Map<'_>, to: usize) -> Places
    requires { Reads file.old from × (to ≤ from) }
    ensures { RulesMoved (codes map.entry) file.old from to file.new result.at result.to }
{
    let mut at = from;
    let mut end = to;
    while file[at] == Tag::Rule as u8 {
        let next = tables::fields::after(file, at);
        end = keep_rule(file, at, map, end);
        at = next;
    }
    Places { at, to: end }
}

// Writes what is left of a clause, if it is not dropped.
fn keep_clause(file: &mut [u8], at: usize, map: Map<'_>, to: usize) -> Places
    requires { ((n : ℕ) × (c : Clause) × (cs : List Clause) × Rest n file.old at [] (c ∷ cs)) × (to ≤ at) }
    ensures { ClauseMoved (codes map.entry) file.old at to file.new result.at result.to }
{
    let run = clause::run_rules(file, at + 3, map);
    if run.met {
        return Places { at: run.next, to };
    }
    fields::put_head(file, to, Tag::Clause as u8, 0);
    keep_rules(file, at + 3, map, to + 3)
}

// Writes what is left of all clauses; it answers the place behind.
pub fn keep_clauses(file: &mut [u8], from: usize, map: Map<'_>, to: usize) -> usize
    requires { Begins file.old from × (to ≤ from) }
    ensures { ClausesMoved (codes map.entry) file.old from to file.new result }
{
    let mut at = from;
    let mut end = to;
    while file[at] == Tag::Clause as u8 {
        let places = keep_clause(file, at, map, end);
        at = places.at;
        end = places.to;
    }
    end
}
