// A whole plan file judged, field by field: "The first field at fault decides."
#![tactic(auto)]

ghost use Rattle.std.specs.Prelude.{◌≡◌};
ghost use Rattle.format.specs.File.{fault, next, read};
ghost use Rattle.verdict.specs.Answers.{outcome};
ghost use Rattle.faults.specs.Faults.{state_of};
ghost use Rattle.bodies.specs.Faults.{number};
ghost use Rattle.judge.specs.Fields.{TakenAt, ending, Steps};

use crate::field::{Reader, Taken};
use bodies::Fault;
use faults::{Stage, State};
use format::Tag;
use verdict::Refusal;

mod field;

impl<'a> Reader<'a> {
    // The state behind a field.
    fn behind(self, field: Taken) -> State
        requires { (fault self.file.now (state_of self.st) ≡ 0) × TakenAt self.file.now self.st.at field }
        ensures { state_of result ≡ next self.entry.file.now (state_of self.entry.st) }
    {
        let at = field.next;
        let st = self.st;
        match field.tag {
            Tag::Variables => State {
                at,
                stage: Stage::Objective,
                variables: words::read_u16(self.file, field.body),
                ..st
            },
            Tag::Objective => State {
                at,
                stage: Stage::Locks,
                ..st
            },
            Tag::Locks => State {
                at,
                stage: Stage::Clause,
                ..st
            },
            Tag::Clause => State {
                at,
                stage: Stage::Rule,
                clauses: st.clauses + 1,
                ..st
            },
            Tag::Rule => State {
                at,
                stage: Stage::MoreRules,
                rules: st.rules + 1,
                terms: st.terms + (at - field.body - 9) / 6,
                ..st
            },
            Tag::End => State {
                at,
                stage: Stage::MoreRules,
                ..st
            },
        }
    }

    // One field read: the state behind it, or none behind the end field. It is a rule of the project that the answer is taken apart by `let .. else` and the
    // refusal answered with its offset (docs/DECISIONS.md, "Language forms of document 01").
    fn go_on(self) -> Result<Option<State>, Refusal>
        ensures { Steps self.entry.file.now self.entry.st result }
    {
        let answer = self.take();
        let Ok(taken) = answer else {
            return Err(refusal(answer.unwrap_err(), self.st.at));
        };
        if taken.tag == Tag::End {
            finish(self.file, taken.next)?;
            return Ok(None);
        }
        Ok(Some(self.behind(taken)))
    }
}

fn refusal(fault: Fault, offset: usize) -> Refusal
    ensures { result ≡ record { number = number fault; offset = offset } }
{
    Refusal {
        number: u32::from(fault),
        offset,
    }
}

// "7: bytes after the end field; the offset is the first of them."
fn finish(file: &[u8], next: usize) -> Result<(), Refusal>
    ensures { result ≡ ending file.now next }
{
    if next < file.len() {
        return Err(refusal(Fault::BytesAfterEnd, next));
    }
    Ok(())
}

// What a file comes to. A field takes three bytes at least, so that there are fewer fields than bytes.
pub fn judge(file: &[u8]) -> Result<(), Refusal>
    ensures { result ≡ outcome (read file.now) }
{
    let mut st = State {
        at: 0,
        stage: Stage::Count,
        variables: 0,
        clauses: 0,
        rules: 0,
        terms: 0,
    };
    for _field in 0..file.len() {
        match (Reader { file, st }).go_on()? {
            Some(next) => st = next,
            None => return Ok(()),
        }
    }
    Err(refusal(Fault::CutShort, st.at))
}
