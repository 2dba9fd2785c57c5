// What is at fault in the body of a field whose head has nothing wrong.
#![tactic(auto)]

ghost use Rattle.std.specs.Prelude.{◌≡◌, not, ◌+◌, leb, ltb};
ghost use Rattle.plpb.specs.Lists.{◌and◌, ◌or◌};
ghost use Rattle.format.specs.Limits.{terms_lawful};
ghost use Rattle.format.specs.Tags.{tag_number};
ghost use Rattle.format.specs.File.{tag_at, length_at, past_limits, wrong_bounds, field_terms, locks_fault};
ghost use Rattle.bodies.specs.Faults.{found};
ghost use Rattle.faults.specs.Faults.{state_of, body_fault, Headed};

use bodies::Fault;
use bodies::locks::entries_fault;
use bodies::terms::{bounds_lawful, terms_lawful};
use format::Tag;

// What may stand next: "Order: 01, 02, then clauses, each 03 followed by one or more 04, then 05 as the last bytes."
// "an optional field, tag 06, between objective and first clause"
#[derive(Clone, Copy)]
pub enum Stage {
    Count,
    Objective,
    Locks,
    Clause,
    Rule,
    MoreRules,
}

// Where reading is, and how much has been read.
#[derive(Clone, Copy)]
pub struct State {
    pub at: usize,
    pub stage: Stage,
    pub variables: u32,
    pub clauses: usize,
    pub rules: usize,
    pub terms: usize,
}

// "4: variable count outside 1 to 512, or the 513th clause, 1,025th rule or a field that brings terms of rules above 6,000."
fn count_wrong(variables: u32) -> bool
    ensures { result ≡ not (leb 1 variables and leb variables 512) }
{
    !(1..=512).contains(&variables)
}

// One rule more than the most that there may be, or its terms above 6,000. Any two numbers may be told, so that their sum stops at the largest that there is.
pub fn rules_full<const MOST: usize>(rules: usize, terms: usize, more: usize) -> bool
    ensures { result ≡ (leb MOST rules or ltb 6_000 (terms + more)) }
{
    MOST <= rules || 6000 < terms.saturating_add(more)
}

// A field whose head has nothing wrong, its tag, and where reading is before it.
#[derive(Clone, Copy)]
struct Field<'a> {
    file: &'a [u8],
    st: State,
    tag: Tag,
    ghost headed: { Headed file.now st.at },
    ghost tagged: { tag_number tag ≡ tag_at file.now st.at },
}

impl<'a> Field<'a> {
    fn past_limits(self) -> bool
        ensures { result ≡ past_limits self.entry.file.now (state_of self.entry.st) }
    {
        let at = self.st.at;
        match self.tag {
            Tag::Variables => count_wrong(words::read_u16(self.file, at + 3)),
            Tag::Clause => 512 <= self.st.clauses,
            Tag::Rule => {
                let size = words::read_size(self.file, at + 1);
                rules_full::<1024>(self.st.rules, self.st.terms, (size - 9) / 6)
            }
            _ => false,
        }
    }

    // "6: mode outside 1 to 3, a bound outside ±1,000,000,000, an absent bound not 0."
    fn wrong_bounds(self) -> bool
        ensures { result ≡ wrong_bounds self.entry.file.now self.entry.st.at }
    {
        let file = self.file;
        let at = self.st.at;
        match self.tag {
            Tag::Rule => !bounds_lawful(
                file[at + 3],
                words::read_i32(file, at + 4),
                words::read_i32(file, at + 8),
            ),
            _ => false,
        }
    }

    // Where it ends.
    fn end(self) -> usize
        ensures { result ≡ self.entry.st.at + 3 + length_at self.entry.file.now self.entry.st.at }
    {
        self.st.at + 3 + words::read_size(self.file, self.st.at + 1)
    }

    fn right_terms(self) -> bool
        ensures { result ≡ terms_lawful self.entry.st.variables (field_terms self.entry.file.now self.entry.st.at) }
    {
        let at = self.st.at;
        let variables = self.st.variables;
        match self.tag {
            Tag::Objective => terms_lawful(&self.file[at + 3..self.end()], variables),
            Tag::Rule => terms_lawful(&self.file[at + 12..self.end()], variables),
            _ => true,
        }
    }

    // "5 for a wrong number as in terms, 10 for another value (after 5 of that entry)"
    fn locks_fault(self) -> Result<(), Fault>
        ensures { found result ≡ locks_fault self.entry.file.now (state_of self.entry.st) }
    {
        let at = self.st.at;
        match self.tag {
            Tag::Locks => entries_fault(&self.file[at + 3..self.end()], self.st.variables),
            _ => Ok(()),
        }
    }
}

// ".., 4, 6, then 5 from left to right." Where the byte is no tag, nothing is asked of the body: the head is refused. The tag is read off the byte here though
// the head's test has read it, so that this clause holds of any byte: a tag handed on would be one more fact that a caller owes.
pub fn body_fault(file: &[u8], st: State) -> Result<(), Fault>
    requires { Headed file.now st.at }
    ensures { found result ≡ body_fault file.now (state_of st) }
{
    let Some(tag) = Tag::of(file[st.at]) else {
        return Ok(());
    };
    let field = Field { file, st, tag };
    if field.past_limits() {
        return Err(Fault::TooLarge);
    }
    if field.wrong_bounds() {
        return Err(Fault::WrongBound);
    }
    if !field.right_terms() {
        return Err(Fault::WrongTerm);
    }
    field.locks_fault()
}
