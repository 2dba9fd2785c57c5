// One field of a plan file: "A field is taken apart into tag, body and next place, or reading stops with its refusal."
ghost use Rattle.std.specs.Prelude.{◌≡◌, ◌+◌, ◌-◌, IfOk};
ghost use Rattle.plpb.specs.Lists.{◌and◌, ◌or◌};
ghost use Rattle.format.specs.File.{at_clause, may_stand, length_lawful, fault};
ghost use Rattle.format.specs.Tags.{tag_number};
ghost use Rattle.bodies.specs.Faults.{found};
ghost use Rattle.faults.specs.Faults.{stage_of, state_of};
ghost use Rattle.judge.specs.Fields.{head_fault, TakenAt};

use bodies::Fault;
use faults::{Stage, State, body_fault};
use format::Tag;

// A file, and where reading it is.
#[derive(Clone, Copy)]
pub struct Reader<'a> {
    pub file: &'a [u8],
    pub st: State,
}

// A field's tag, where its body begins, and the next place.
#[derive(Clone, Copy)]
pub struct Taken {
    pub tag: Tag,
    pub body: usize,
    pub next: usize,
}

// A clause or the end.
fn begins_or_ends(tag: Tag) -> bool
    ensures { result ≡ may_stand at_clause (tag_number tag) }
{
    tag == Tag::Clause || tag == Tag::End
}

fn may_stand(stage: Stage, tag: Tag) -> bool
    ensures { result ≡ may_stand (stage_of stage) (tag_number tag) }
{
    match stage {
        Stage::Count => tag == Tag::Variables,
        Stage::Objective => tag == Tag::Objective,
        Stage::Locks => tag == Tag::Locks || begins_or_ends(tag),
        Stage::Clause => begins_or_ends(tag),
        Stage::Rule => tag == Tag::Rule,
        Stage::MoreRules => tag == Tag::Rule || begins_or_ends(tag),
    }
}

// The table's column 'length'.
fn length_lawful(tag: Tag, size: usize) -> bool
    ensures { result ≡ length_lawful (tag_number tag) size }
{
    match tag {
        Tag::Variables => size == 2,
        Tag::Objective => size % 6 == 0,
        Tag::Clause => size == 0,
        Tag::Rule => 15 <= size && (size - 9) % 6 == 0,
        Tag::End => size == 0,
        Tag::Locks => size % 3 == 0,
    }
}

impl<'a> Reader<'a> {
    // "In a field: 1 for the head, 2, 3, 1 for the body, .."
    fn head(self) -> Result<Taken, Fault>
        ensures fault { found result ≡ head_fault self.entry.file.now self.entry.st.at (stage_of self.entry.st.stage) }
        ensures taken { IfOk result (λ field. TakenAt self.entry.file.now self.entry.st.at field) }
    {
        let at = self.st.at;
        let left = self.file.len().saturating_sub(at);
        if left < 3 {
            return Err(Fault::CutShort);
        }
        let Some(tag) = Tag::of(self.file[at]) else {
            return Err(Fault::WrongTag);
        };
        if !may_stand(self.st.stage, tag) {
            return Err(Fault::WrongTag);
        }
        let size = words::read_size(self.file, at + 1);
        if !length_lawful(tag, size) {
            return Err(Fault::WrongLength);
        }
        if left - 3 < size {
            return Err(Fault::CutShort);
        }
        let body = at + 3;
        Ok(Taken {
            tag,
            body,
            next: body + size,
        })
    }

    // The field that stands there, with nothing at fault in its head or its body.
    pub fn take(self) -> Result<Taken, Fault>
        ensures fault { found result ≡ fault self.entry.file.now (state_of self.entry.st) }
        ensures taken { IfOk result (λ field. TakenAt self.entry.file.now self.entry.st.at field) }
    {
        let taken = self.head()?;
        body_fault(self.file, self.st)?;
        Ok(taken)
    }
}
