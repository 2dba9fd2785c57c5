// A loaded plan as an OPB text in a lent buffer (document 02, T-02). The text is measured by putting it into no buffer at all, then put.
#![tactic(auto)]

ghost use Rattle.std.specs.Prelude.{◌≡◌, MatchResult};
ghost use Rattle.writer.specs.Calls.{write_refusal, write_length, text_after};
ghost use Rattle.writer.specs.Refusals.{number_of, length_of};

use opbtext::lent::Whole;

// A refusal's number, or 0; and the text's length, with 33 too. With 21 and 22 the length is 0. The C interface hands it out as it stands.
#[repr(C)]
#[derive(Clone, Copy)]
pub struct Written {
    pub refusal: u32,
    pub length: usize,
}

// Why no text is written. One that outgrows the buffer has its length.
enum Refusal {
    TooSmall,
    NotLoaded,
    Outgrown(usize),
}

// What C is told of it.
impl From<Refusal> for Written {
    ghost from_gives = { λ refusal w. (w.refusal ≡ number_of refusal) × (w.length ≡ length_of refusal) };

    fn from(refusal: Refusal) -> Written {
        match refusal {
            Refusal::TooSmall => Written {
                refusal: 21,
                length: 0,
            },
            Refusal::NotLoaded => Written {
                refusal: 22,
                length: 0,
            },
            Refusal::Outgrown(length) => Written {
                refusal: 33,
                length,
            },
        }
    }
}

// Writes the text where it is to be written, and answers its length. The tables are two slices, as C lends them: nothing is known of them before the tests.
fn write_text(tables: &[u8], terms: &[u8], text: &mut [u8]) -> Result<usize, Refusal>
    ensures answer { MatchResult result
        (λ n. (0 ≡ write_refusal tables.now terms.now text.old) × (n ≡ write_length tables.now terms.now))
        (λ e. (number_of e ≡ write_refusal tables.now terms.now text.old) × (length_of e ≡ write_length tables.now terms.now)) }
    ensures text_after { text.new ≡ text_after tables.now terms.now text.old }
{
    if tables.len() < format::TABLES || terms.len() < format::TERMS {
        return Err(Refusal::TooSmall);
    }
    if !loaded::good(tables, terms) {
        return Err(Refusal::NotLoaded);
    }
    let whole = Whole { tables, terms };
    let length = whole.put_text(&mut text[..0]);
    if text.len() < length {
        return Err(Refusal::Outgrown(length));
    }
    whole.put_text(text);
    Ok(length)
}

pub fn write_opb(tables: &[u8], terms: &[u8], text: &mut [u8]) -> Written
    ensures refusal_value { (result.refusal ≡ write_refusal tables.now terms.now text.old)
        × (result.length ≡ write_length tables.now terms.now) }
    ensures text_after { text.new ≡ text_after tables.now terms.now text.old }
{
    match write_text(tables, terms, text) {
        Ok(length) => Written { refusal: 0, length },
        Err(refusal) => Written::from(refusal),
    }
}
