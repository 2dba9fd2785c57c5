// The parts of a statement of an OPB text, read from left to right: each is answered with the text behind it, and with None where it is not there.
#![tactic(auto)]

ghost use Rattle.std.specs.Prelude.{◌≡◌, ◌≤◌};
ghost use Rattle.tokens.specs.Found.{read, Reads, Behind, Found};
ghost use Rattle.statements.specs.Grammar.{is_integer, is_term, has_terms, is_bounded};
ghost use Rattle.statements.specs.Parts.{IsKind, behind_min, IntegerAt, WeightedAt, SumAt, RelationAt};

use bodies::terms::term_fits;
use tokens::{Text, byte};

// What a line begins with tells its kind. Nothing is asked of the place where it begins, so that the place stays beside the text: a `Text` would ask that it is
// none beyond the end.
#[derive(Clone, Copy, Debug, PartialEq, Eq)]
pub enum Kind {
    Comment,
    Objective,
    Constraint,
}

pub fn kind_at(s: &[u8], at: usize) -> Kind
    ensures { IsKind s.now at result }
{
    match byte(s, at) {
        b'*' => Kind::Comment,
        b'm' => Kind::Objective,
        _ => Kind::Constraint,
    }
}

// Where the sum of an objective begins: behind "min:" and blanks.
pub fn objective_sum(t: Text<'_>) -> Text<'_>
    ensures { Reads (Behind behind_min) t.entry result }
{
    t.past_word(b"min:").unwrap_or(t).past_blanks()
}

// A number with its sign. The two stay apart: a judge asks for the size alone, so that one signed number would be taken apart again.
#[derive(Clone, Copy, Debug, PartialEq, Eq)]
pub struct Signed {
    pub negative: bool,
    pub size: u32,
}

// integer ::= unsigned_integer | "+" unsigned_integer | "-" unsigned_integer
#[derive(Clone, Copy)]
pub struct Integer<'a> {
    pub value: Signed,
    pub rest: Text<'a>,
}

pub fn integer_at(t: Text<'_>) -> Option<Integer<'_>>
    ensures { Found (read is_integer t.entry) (Reads IntegerAt t.entry) result }
{
    let minus = t.past_word(b"-");
    let number = minus.or(t.past_word(b"+")).unwrap_or(t).number()?;
    let value = Signed {
        negative: minus.is_some(),
        size: number.value,
    };
    Some(Integer {
        value,
        rest: number.rest,
    })
}

// weightedterm ::= integer oneOrMoreSpace "x" unsigned_integer oneOrMoreSpace
#[derive(Clone, Copy)]
pub struct Weighted<'a> {
    pub weight: Signed,
    pub variable: u32,
    pub rest: Text<'a>,
}

// An iterator of a sum's terms would need laws of what it yields, and `sum_at` needs the text behind the last term too.
pub fn term_at(t: Text<'_>) -> Option<Weighted<'_>>
    ensures { Found (read is_term t.entry) (Reads WeightedAt t.entry) result }
{
    let weight = integer_at(t)?;
    let letter = weight.rest.past_some_blanks()?;
    let from = letter.past_word(b"x")?;
    let index = from.number()?;
    let rest = index.rest.past_some_blanks()?;
    Some(Weighted {
        weight: weight.value,
        variable: index.value,
        rest,
    })
}

// sum ::= weightedterm | weightedterm sum, judged by the way: how many terms there are, whether a variable is above n, whether the terms are lawful.
// The two flags stay apart: a statement's other faults come between theirs, so that one optional fault would be taken apart again.
#[derive(Clone, Copy)]
pub struct Sum<'a> {
    pub count: usize,
    pub above: bool,
    pub lawful: bool,
    pub rest: Text<'a>,
}

pub fn sum_at(t: Text<'_>, n: u32) -> Option<Sum<'_>>
    requires { n ≤ 512 }
    ensures { Found (read has_terms t.entry) (SumAt t.entry.bytes.now t.entry.at n) result }
{
    let mut rest = t;
    let mut before = 0;
    let mut count = 0;
    let mut above = false;
    let mut lawful = true;
    while let Some(term) = term_at(rest) {
        above |= n < term.variable;
        lawful &= term_fits(term.variable, term.weight.size, before, n);
        before = term.variable;
        rest = term.rest;
        count += 1;
    }
    if count == 0 {
        return None;
    }
    Some(Sum {
        count,
        above,
        lawful,
        rest,
    })
}

// relational_operator zeroOrMoreSpace integer zeroOrMoreSpace. There are two operators, and all that is asked of one is whether it is "=".
#[derive(Clone, Copy)]
pub struct Relation<'a> {
    pub exact: bool,
    pub bound: Signed,
    pub rest: Text<'a>,
}

pub fn relation_at(t: Text<'_>) -> Option<Relation<'_>>
    ensures { Found (read is_bounded t.entry) (Reads RelationAt t.entry) result }
{
    let equal = t.past_word(b"=");
    let behind = equal.or(t.past_word(b">="))?;
    let bound = integer_at(behind.past_blanks())?;
    Some(Relation {
        exact: equal.is_some(),
        bound: bound.value,
        rest: bound.rest.past_blanks(),
    })
}
