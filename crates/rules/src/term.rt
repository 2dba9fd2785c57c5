// One term of the term table, and its literal under an assignment.
ghost use Rattle.std.specs.Prelude.{◌≡◌, ◌+◌, ◌*◌, ◌≤◌, ◌<◌, length};
ghost use Rattle.plpb.specs.Plan.{value};
ghost use Rattle.words.specs.Words.{word_at};
ghost use Rattle.format.specs.Tables.{term_of};
ghost use Rattle.rules.specs.Terms.{bits_in, term_in, LiteralOf, TermReadable};

use words::{magnitude, to_signed, word};

#[derive(Clone, Copy)]
pub struct Term {
    pub variable: u32,
    pub weight: i32,
}

pub fn read_term(terms: &[u8], i: usize) -> Term
    requires { 8 * i + 8 ≤ length terms.now }
    ensures { term_in result ≡ term_of (word_at terms.now) i }
{
    Term {
        variable: word(terms, 2 * i),
        weight: to_signed(word(terms, 2 * i + 1)),
    }
}

// The place of a variable's byte: numbers count from 1.
fn byte_of(variable: u32) -> usize
    requires { 0 < variable }
    ensures { result + 1 ≡ variable }
{
    variable as usize - 1
}

pub fn value_of(assignment: &[u8], variable: u32) -> bool
    requires { (0 < variable) × (variable ≤ length assignment.now) }
    ensures { result ≡ value (bits_in assignment.now) variable }
{
    let i = byte_of(variable);
    assignment[i] == 1
}

// A term's literal: its positive weight, and whether it is true.
#[derive(Clone, Copy)]
pub struct Literal {
    pub size: u32,
    pub truth: bool,
}

pub fn read_literal(terms: &[u8], assignment: &[u8], i: usize) -> Literal
    requires { TermReadable terms.now assignment.now i }
    ensures { LiteralOf (bits_in assignment.now) (term_of (word_at terms.now) i) result }
{
    let t = read_term(terms, i);
    let value = value_of(assignment, t.variable);
    Literal {
        size: magnitude(t.weight),
        truth: value != t.weight.is_negative(),
    }
}
