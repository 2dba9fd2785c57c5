// The first line of an OPB text, and the way from line to line.
#![tactic(auto)]

ghost use Rattle.std.specs.Prelude.{◌≡◌, ltb};
ghost use Rattle.plpb.specs.Lists.{◌and◌};
ghost use Rattle.tokens.specs.Tokens.{begins};
ghost use Rattle.tokens.specs.Found.{left, read, Reads, Behind, Found};
ghost use Rattle.opb_lines.specs.ReadText.{named_from, named_end, first_formed};
ghost use Rattle.opb_lines.specs.Lines.{NamedAt, FirstOf, next_line};

use tokens::{Number, Text};

// A number behind its name.
fn named_at<'a>(t: Text<'a>, name: &[u8]) -> Option<Number<'a>>
    ensures { Found (begins name.now (left t.entry) and ltb (read (named_from name.now) t.entry) (read (named_end name.now) t.entry))
        (Reads (NamedAt name.now) t.entry) result }
{
    let behind = t.past_word(name)?;
    behind.past_blanks().number()
}

// "a first line `* #variable= n #constraint= m`"
#[derive(Clone, Copy)]
pub struct First {
    pub variables: u32,
    pub constraints: u32,
}

pub fn first_line(s: &[u8]) -> Option<First>
    ensures { Found (first_formed s.now) (FirstOf s.now) result }
{
    let behind = Text::from(s).past_word(b"*")?;
    let variables = named_at(behind.past_blanks(), b"#variable=")?;
    let second = variables.rest.past_some_blanks()?;
    let constraints = named_at(second, b"#constraint=")?;
    constraints.rest.past_blanks().past_word(b"\n")?;
    Some(First {
        variables: variables.value,
        constraints: constraints.value,
    })
}

// Behind the line feed that ends the line, or the end of the text.
pub fn next_line(t: Text<'_>) -> Text<'_>
    ensures { Reads (Behind next_line) t.entry result }
{
    let end = t.line_end();
    end.past_word(b"\n").unwrap_or(end)
}
