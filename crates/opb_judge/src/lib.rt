// A whole OPB text judged, line by line: "the first statement at fault deciding".
#![tactic(auto)]

ghost use Rattle.std.specs.Prelude.{◌≡◌, true, false, not, ◌+◌, ◌≤◌, length};
ghost use Rattle.tokens.specs.Tokens.{line_end, seen};
ghost use Rattle.tokens.specs.Found.{read};
ghost use Rattle.statements.specs.Grammar.{is_objective, sum_from, closes, sum_at};
ghost use Rattle.statements.specs.Parts.{SumAt};
ghost use Rattle.verdict.specs.Answers.{outcome};
ghost use Rattle.opb_lines.specs.ReadText.{variables_in, constraints_in, starts, judging, read_text};
ghost use Rattle.opb_judge.specs.Steps.{objective_line, constraint_line, number_of, Finds, Unless, OnFault, Steps};

use faults::rules_full;
use opb_lines::{first_line, next_line};
use statements::{Kind, Sum, kind_at, objective_sum, relation_at, sum_at};
use tokens::Text;
use verdict::Refusal;

// What the lines passed have: whether an objective may still stand, how many constraints there are, and how many terms these have.
// Whether one may stand is a fact of its own: the two counts go on beside it.
#[derive(Clone, Copy)]
pub struct Passed {
    pub free: bool,
    pub constraints: usize,
    pub terms: usize,
}

// What is wrong with a text or a line of it.
#[derive(Clone, Copy, Debug, PartialEq, Eq)]
pub enum Fault {
    Malformed,
    VariableAbove,
    ConstraintsMiscounted,
    OutOfRange,
    TermsUnlawful,
    BoundWide,
}

// Its number in a refusal.
impl From<Fault> for u32 {
    ghost from_gives = { λ fault n. n ≡ number_of fault };

    fn from(fault: Fault) -> u32 {
        match fault {
            Fault::Malformed => 31,
            Fault::VariableAbove => 32,
            Fault::ConstraintsMiscounted => 32,
            Fault::OutOfRange => 4,
            Fault::TermsUnlawful => 5,
            Fault::BoundWide => 6,
        }
    }
}

// A line of a text of n variables, and where it ends.
#[derive(Clone, Copy)]
pub struct Line<'a> {
    pub text: Text<'a>,
    pub end: usize,
    pub n: u32,
    ghost ends: { end ≡ read line_end text },
    ghost named: { n ≡ variables_in text.bytes.now },
    ghost few: { n ≤ 512 },
}

// ";" and the line feed that ends the line.
fn closed(t: Text<'_>, end: usize) -> bool
    ensures { result ≡ closes t.entry.bytes.now t.entry.at end }
{
    t.byte() == b';' && t.at + 1 == end
}

// A fault, where it is met.
fn fault_if(met: bool, fault: Fault) -> Result<(), Fault>
    ensures { Unless met fault result }
{
    if met { Err(fault) } else { Ok(()) }
}

// "32 for a variable above n, then 4 to 6 as in a plan": the first that a formed statement meets. Its three tests are joined by `&`, so that whether it is
// formed is one fact of the proof and no way out.
fn objective_fault(line: Line<'_>, sum: Sum<'_>, free: bool) -> Result<(), Fault>
    requires { SumAt line.text.bytes.now (read sum_from line.text) (variables_in line.text.bytes.now) sum }
    ensures { Finds (objective_line line.entry.text.bytes.now free line.entry.text.at) result }
{
    let named = line.text.past_word(b"min:").is_some();
    let formed = free & (named & closed(sum.rest, line.end));
    fault_if(!formed, Fault::Malformed)?;
    fault_if(sum.above, Fault::VariableAbove)?;
    fault_if(!sum.lawful, Fault::TermsUnlawful)
}

fn constraint_fault(line: Line<'_>, sum: Sum<'_>, passed: Passed) -> Result<(), Fault>
    requires { SumAt line.text.bytes.now line.text.at (variables_in line.text.bytes.now) sum × (read is_objective line.text ≡ false) }
    ensures { Finds (constraint_line line.entry.text.bytes.now passed.constraints passed.terms line.entry.text.at) result }
{
    let relation = relation_at(sum.rest).ok_or(Fault::Malformed)?;
    fault_if(!closed(relation.rest, line.end), Fault::Malformed)?;
    fault_if(sum.above, Fault::VariableAbove)?;
    // "4: [..] the 513th clause, [..] or a field that brings terms of rules above 6,000."
    let full = rules_full::<512>(passed.constraints, passed.terms, sum.count);
    fault_if(full, Fault::OutOfRange)?;
    fault_if(1000000000 < relation.bound.size, Fault::BoundWide)?;
    fault_if(!sum.lawful, Fault::TermsUnlawful)
}

fn objective_step(line: Line<'_>, passed: Passed) -> Result<Passed, Fault>
    requires { read is_objective line.text ≡ true }
    ensures { OnFault (objective_line line.entry.text.bytes.now passed.free line.entry.text.at)
        (record { free = false; constraints = passed.constraints; terms = passed.terms }) result }
{
    let sum = sum_at(objective_sum(line.text), line.n).ok_or(Fault::Malformed)?;
    objective_fault(line, sum, passed.free)?;
    Ok(Passed {
        free: false,
        ..passed
    })
}

fn constraint_step(line: Line<'_>, passed: Passed) -> Result<Passed, Fault>
    requires { read is_objective line.text ≡ false }
    ensures { OnFault (constraint_line line.entry.text.bytes.now passed.constraints passed.terms line.entry.text.at)
        (record { free = false; constraints = passed.constraints + 1; terms = passed.terms + length (read sum_at line.entry.text) }) result }
{
    let sum = sum_at(line.text, line.n).ok_or(Fault::Malformed)?;
    constraint_fault(line, sum, passed)?;
    Ok(Passed {
        free: false,
        constraints: passed.constraints + 1,
        terms: passed.terms + sum.count,
    })
}

fn judge_line(text: Text<'_>, n: u32, passed: Passed) -> Result<Passed, Fault>
    requires { (n ≡ variables_in text.bytes.now) × (n ≤ 512) }
    ensures { Steps text.entry.bytes.now text.entry.at passed result }
{
    let end = text.line_end().at;
    fault_if(end == text.bytes.len(), Fault::Malformed)?;
    let line = Line { text, end, n };
    match kind_at(text.bytes, text.at) {
        Kind::Comment => Ok(passed),
        Kind::Objective => objective_step(line, passed),
        Kind::Constraint => constraint_step(line, passed),
    }
}

fn refusal(fault: Fault, at: usize) -> Refusal
    ensures { result ≡ record { number = number_of fault; offset = at } }
{
    Refusal {
        number: u32::from(fault),
        offset: at,
    }
}

fn judge_lines(s: &[u8], n: u32, constraints: u32) -> Result<(), Refusal>
    requires { (n ≡ variables_in s.now) × (n ≤ 512) × (constraints ≡ seen (constraints_in s.now)) }
    ensures { result ≡ outcome (judging s.now true 0 0 (starts 0 s.now)) }
{
    let mut text = next_line(Text::from(s));
    let mut passed = Passed {
        free: true,
        constraints: 0,
        terms: 0,
    };
    while text.at < s.len() {
        passed = judge_line(text, n, passed).map_err(|f| refusal(f, text.at))?;
        text = next_line(text);
    }
    if passed.constraints == constraints as usize {
        Ok(())
    } else {
        Err(refusal(Fault::ConstraintsMiscounted, 0))
    }
}

// "31 for malformed text", "4: variable count outside 1 to 512"; then the lines behind the first.
pub fn judge_text(s: &[u8]) -> Result<(), Refusal>
    ensures { result ≡ outcome (read_text s.now) }
{
    let first = first_line(s).ok_or(refusal(Fault::Malformed, 0))?;
    if !(1..=512).contains(&first.variables) {
        return Err(refusal(Fault::OutOfRange, 0));
    }
    judge_lines(s, first.variables, first.constraints)
}
