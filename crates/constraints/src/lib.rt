// Constraints put into a lent buffer, one line each: terms that stand in a table of words, and new variables.
// The buffer and the place in it stay two parameters, as in spelling.
#![tactic(auto)]

ghost use Rattle.std.specs.Prelude.{◌≡◌, not, [], ◌∷◌, ◌++◌, map, ◌+◌, ◌≤◌, ◌<◌, pos, negsuc};
ghost use Rattle.words.specs.Words.{word_at};
ghost use Rattle.texts.specs.Texts.{text};
ghost use Rattle.opb.specs.Spell.{relation as spelled, spell_line};
ghost use Rattle.opb.specs.Tau.{weighted, fixed, lock_line, both_lines, geq};
ghost use Rattle.spelling.specs.Overlay.{Puts, Room};
ghost use Rattle.extremes.specs.Terms.{terms_in};
ghost use Rattle.extremes.specs.Sums.{terms_of};
ghost use Rattle.constraints.specs.Bytes.{sum_bytes, end_bytes, lines_bytes, turned as turnedBy, turned_term, sided, Small};
ghost use Rattle.constraints.specs.Sides.{turns, is_exact};

use extremes::sum::Sum;
use integers::minus;
use spelling::{put_byte, put_bytes, put_coefficient, put_decimal, put_signed};
use words::{index, to_signed, word};

// A term; nothing where its coefficient is 0.
pub fn put_term(out: &mut [u8], at: usize, weight: i32, variable: usize) -> usize
    requires { Room at (sum_bytes (weighted weight variable ∷ [])) }
    ensures { Puts (sum_bytes (weighted weight variable ∷ [])) at out.old out.new result }
{
    if weight == 0 {
        return at;
    }
    let a = put_coefficient(out, at, weight);
    let b = put_bytes(out, a, b" x");
    let c = put_decimal(out, b, variable as u64);
    put_byte(out, c, b' ')
}

// Which side of its bound a sum stays on. The line of a sum that stays at most at a bound has all signs changed.
#[derive(Clone, Copy)]
pub enum Side {
    AtLeast,
    AtMost,
}

impl Side {
    pub fn other(self) -> Side
        ensures { turns result ≡ not (turns self) }
    {
        match self {
            Side::AtLeast => Side::AtMost,
            Side::AtMost => Side::AtLeast,
        }
    }

    // A number as it stands in such a line.
    fn turned(self, v: i32) -> i32
        requires { Small v }
        ensures { result ≡ turnedBy (turns self) v }
    {
        match self {
            Side::AtLeast => v,
            Side::AtMost => minus(0, v),
        }
    }
}

// What a line says of its sum and its bound.
#[derive(Clone, Copy)]
pub enum Relation {
    AtLeast,
    Equal,
}

fn put_relation(out: &mut [u8], at: usize, relation: Relation) -> usize
    requires { Room at (spelled (is_exact relation) ++ text " ") }
    ensures { Puts (spelled (is_exact relation) ++ text " ") at out.old out.new result }
{
    match relation {
        Relation::AtLeast => put_bytes(out, at, b">= "),
        Relation::Equal => put_bytes(out, at, b"= "),
    }
}

// What stands behind a sum.
pub fn put_end(out: &mut [u8], at: usize, relation: Relation, bound: i32) -> usize
    requires { Room at (end_bytes (is_exact relation) bound) }
    ensures { Puts (end_bytes (is_exact relation) bound) at out.old out.new result }
{
    let a = put_relation(out, at, relation);
    let b = put_signed(out, a, bound);
    put_bytes(out, b, b" ;\n")
}

// Term i of the table, one of a rule's.
fn put_stored(out: &mut [u8], at: usize, sum: &Sum<'_>, i: usize, side: Side) -> usize
    requires among { (sum.now.first ≤ i) × (i < sum.now.first + sum.now.count) }
    requires room { Room at (sum_bytes (map (turned_term (turns side)) (terms_in (word_at sum.now.terms.now) i 1))) }
    ensures { Puts (sum_bytes (map (turned_term (turns side)) (terms_in (word_at sum.now.terms.now) i 1))) at out.old out.new result }
{
    let weight = side.turned(to_signed(word(sum.terms, 2 * i + 1)));
    put_term(out, at, weight, index(sum.terms, 2 * i))
}

// The terms of a rule. Sum and side come as two parameters, here and in what is built on it: the two lines of one bound have one sum on both sides, so that a
// struct of both would be taken apart for the second line.
fn put_terms(out: &mut [u8], at: usize, sum: &Sum<'_>, side: Side) -> usize
    requires { Room at (sum_bytes (map (turned_term (turns side)) (terms_of sum.now))) }
    ensures { Puts (sum_bytes (map (turned_term (turns side)) (terms_of sum.now))) at out.old out.new result }
{
    let mut next = at;
    for i in sum.first..sum.first + sum.count {
        next = put_stored(out, next, sum, i, side);
    }
    next
}

// A rule's terms and one more, of which nothing is written where its coefficient is 0, on a side of a bound.
pub fn put_constraint(
    out: &mut [u8],
    at: usize,
    sum: &Sum<'_>,
    side: Side,
    weight: i32,
    variable: usize,
    bound: i32,
) -> usize
    requires small { Small weight × Small bound }
    requires room { Room at (spell_line (sided (turns side) (terms_of sum.now ++ (weighted weight variable ∷ [])) bound)) }
    ensures { Puts (spell_line (sided (turns side) (terms_of sum.now ++ (weighted weight variable ∷ [])) bound)) at out.old out.new result }
{
    let a = put_terms(out, at, sum, side);
    let b = put_term(out, a, side.turned(weight), variable);
    put_end(out, b, Relation::AtLeast, side.turned(bound))
}

// Each line from here on is its terms, one to three of them, and its end. One function for all would put a list of terms by a loop, with an invariant for what
// is two to four calls here, and each line would still have its own clause.

// "the W⁺ or W⁻ of an absent bound, numbered xk, has in place of its own lines `+1 xk >= 1 ;`"
pub fn put_fixed(out: &mut [u8], at: usize, variable: usize) -> usize
    requires { Room at (lines_bytes (fixed variable)) }
    ensures { Puts (lines_bytes (fixed variable)) at out.old out.new result }
{
    let a = put_term(out, at, 1, variable);
    put_end(out, a, Relation::AtLeast, 1)
}

// "A lock becomes an `=` line".
pub fn put_lock(out: &mut [u8], at: usize, variable: usize, value: bool) -> usize
    requires { Room at (spell_line (lock_line (record { variable = variable; value = value }))) }
    ensures { Puts (spell_line (lock_line (record { variable = variable; value = value }))) at out.old out.new result }
{
    let a = put_term(out, at, 1, variable);
    put_end(out, a, Relation::Equal, i32::from(value))
}

// This is the line of (20) or of (21).
fn put_pair(out: &mut [u8], at: usize, part: usize, whole: usize) -> usize
    requires { Room at (spell_line (geq (weighted (pos 1) part ∷ weighted (negsuc 0) whole ∷ []) (pos 0))) }
    ensures { Puts (spell_line (geq (weighted (pos 1) part ∷ weighted (negsuc 0) whole ∷ []) (pos 0))) at out.old out.new result }
{
    let a = put_term(out, at, 1, part);
    let b = put_term(out, a, -1, whole);
    put_end(out, b, Relation::AtLeast, 0)
}

// This is the line of (22).
fn put_triple(out: &mut [u8], at: usize, plus: usize, minus: usize, whole: usize) -> usize
    requires { Room at (spell_line (geq (weighted (negsuc 0) plus ∷ weighted (negsuc 0) minus ∷ weighted (pos 1) whole ∷ []) (negsuc 0))) }
    ensures { Puts (spell_line (geq (weighted (negsuc 0) plus ∷ weighted (negsuc 0) minus ∷ weighted (pos 1) whole ∷ []) (negsuc 0))) at
        out.old out.new result }
{
    let a = put_term(out, at, -1, plus);
    let b = put_term(out, a, -1, minus);
    let c = put_term(out, b, 1, whole);
    put_end(out, c, Relation::AtLeast, -1)
}

// (20), (21) and (22), of the rule with k variables before its own.
pub fn put_both(out: &mut [u8], at: usize, k: usize) -> usize
    requires { (k < 4_294_967_296) × Room at (lines_bytes (both_lines k)) }
    ensures { Puts (lines_bytes (both_lines k)) at out.old out.new result }
{
    let a = put_pair(out, at, k + 1, k + 3);
    let b = put_pair(out, a, k + 2, k + 3);
    put_triple(out, b, k + 1, k + 2, k + 3)
}
