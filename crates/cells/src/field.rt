// One field of a record, plain or in quotes.
ghost use Rattle.std.specs.Prelude.{◌≡◌, Some, false, eqb};
ghost use Rattle.plpb.specs.Lists.{◌or◌};
ghost use Rattle.cells.specs.Grammar.{is_text, may_stand as mayStandIn, plain as plain_of, in_quotes, field_of, with_comma, with_end};
ghost use Rattle.cells.specs.Values.{no_bytes};
ghost use Rattle.cells.specs.Reading.{gathered, read_off};

use crate::value::{Value, empty, with};

const QUOTE: u8 = b'"';

const COMMA: u8 = b',';

const CR: u8 = b'\r';

const LF: u8 = b'\n';

// What a field holds and the bytes behind it.
#[derive(Clone, Copy)]
pub struct Field<'a> {
    pub value: Value,
    pub rest: &'a [u8],
}

// TEXTDATA = %x20-21 / %x23-2B / %x2D-7E
fn is_text(b: u8) -> bool
    ensures { result ≡ is_text b }
{
    matches!(b, 0x20..=0x21 | 0x23..=0x2B | 0x2D..=0x7E)
}

// non-escaped = *TEXTDATA
// The loop is no chain: a field goes on to what stands behind it, and a chain that counts its bytes would be followed by a second one that gathers them.
fn plain(s: &[u8]) -> Field<'_>
    ensures { read_off (Some result) ≡ gathered no_bytes (plain_of s.now) }
{
    let mut value = empty();
    let mut rest = s;
    while let [b, after @ ..] = rest {
        if !is_text(*b) {
            break;
        }
        value = with(value, *b);
        rest = after;
    }
    Field { value, rest }
}

// What may stand in quotes: TEXTDATA / COMMA / CR / LF.
fn may_stand(b: u8) -> bool
    ensures { result ≡ mayStandIn b }
{
    matches!(b, COMMA | CR | LF) || is_text(b)
}

// escaped = DQUOTE *(TEXTDATA / COMMA / CR / LF / 2DQUOTE) DQUOTE, from behind its first quote on.
// It is no plain field with other bytes: that one ends before the first byte that it may not have, and this one has none with such a byte, and takes two
// bytes at a time where they stand for one.
fn quoted(s: &[u8]) -> Option<Field<'_>>
    ensures { read_off result ≡ gathered no_bytes (in_quotes false s.now) }
{
    let mut value = empty();
    let mut rest = s;
    while let [b, after @ ..] = rest {
        if *b == QUOTE {
            // Of two quotes one counts, and a single one closes the field.
            let Some(behind) = after.strip_prefix(b"\"") else {
                return Some(Field { value, rest: after });
            };
            value = with(value, QUOTE);
            rest = behind;
        } else {
            if !may_stand(*b) {
                return None;
            }
            value = with(value, *b);
            rest = after;
        }
    }
    None
}

// field = escaped / non-escaped
fn read_field(s: &[u8]) -> Option<Field<'_>>
    ensures { read_off result ≡ gathered no_bytes (field_of s.now) }
{
    match s.strip_prefix(b"\"") {
        Some(rest) => quoted(rest),
        None => Some(plain(s)),
    }
}

// A field with the comma behind it.
pub fn lead(s: &[u8]) -> Option<Field<'_>>
    ensures { read_off result ≡ gathered no_bytes (with_comma (field_of s.now)) }
{
    let field = read_field(s)?;
    let rest = field.rest.strip_prefix(b",")?;
    Some(Field { rest, ..field })
}

// A record's last field with what ends the row: CRLF, or the end of the list. It stands beside `lead`, which a comma alone ends: a function for both would
// take the bytes that end a field, and whether the end of the list does too.
pub fn last(s: &[u8]) -> Option<Field<'_>>
    ensures { read_off result ≡ gathered no_bytes (with_end (field_of s.now)) }
{
    let field = read_field(s)?;
    if field.rest.is_empty() {
        return Some(field);
    }
    let rest = field.rest.strip_prefix(b"\r\n")?;
    Some(Field { rest, ..field })
}
