// The items of an OPB text: each is read off the front of what is still to be read, and answered with the text behind it.
#![tactic(auto)]

mod text;

ghost use Rattle.std.specs.Prelude.{◌≡◌, ℕ, true, false, ◌<◌, ◌+◌, ◌*◌, ◌-◌, ◌≤◌, length, get_or};
ghost use Rattle.tokens.specs.Tokens.{blanks_end, digits_end, line_end, begins, word_end, most, seen};
ghost use Rattle.tokens.specs.Found.{left, Reads, Behind, takes, Found, NumberAt};

pub use text::Text;

// The byte at a place, 0 beyond the end: the definitions of the grammar read it so, and callers cite them.
pub fn byte(s: &[u8], at: usize) -> u8
    ensures { result ≡ get_or s.now at 0 }
{
    s.get(at).copied().unwrap_or(0)
}

// A number with one digit more, up to 4,000,000,000: from 400,000,000 on a digit more makes that at least.
fn with_digit(value: u32, digit: u8) -> u32
    requires { (value ≤ most) × (48 ≤ digit) × (digit ≤ 57) }
    ensures { result ≡ seen (10 * value + (digit - 48)) }
{
    let full = 399_999_999 < value;
    if full {
        4_000_000_000
    } else {
        10 * value + u32::from(digit - b'0')
    }
}

// What is seen of a number, and the text behind its digits.
#[derive(Clone, Copy)]
pub struct Number<'a> {
    pub value: u32,
    pub rest: Text<'a>,
}

impl<'a> Text<'a> {
    // The first byte still to be read, 0 where none is.
    pub fn byte(self) -> u8
        ensures { result ≡ get_or self.entry.bytes.now self.entry.at 0 }
    {
        byte(self.bytes, self.at)
    }

    // Behind the bytes that are such: the library's `position` keeps one count for its place and for how far it came. A loop over places of the whole text
    // was compiled to two counts, and to two instructions a byte more.
    fn past_such<F: Fn(u8) -> bool>(self, such: F) -> Text<'a>
        requires { F.IsAlwaysCallable such }
        ensures same { result.bytes.now ≡ self.entry.bytes.now }
        ensures onward { self.entry.at ≤ result.at }
        ensures passed { (k : ℕ) → self.entry.at ≤ k → k < result.at → F.post such (get_or self.entry.bytes.now k 0) true }
        ensures stop { result.at < length self.entry.bytes.now → F.post such (get_or self.entry.bytes.now result.at 0) false }
    {
        let rest = &self.bytes[self.at..];
        let passed = rest.iter().position(|&b| !such(b)).unwrap_or(rest.len());
        Text {
            bytes: self.bytes,
            at: self.at + passed,
        }
    }

    pub fn past_blanks(self) -> Text<'a>
        ensures { Reads (Behind blanks_end) self.entry result }
    {
        self.past_such(|b| b == b' ')
    }

    // The line feed that ends the line, or the end of the text.
    pub fn line_end(self) -> Text<'a>
        ensures { Reads (Behind line_end) self.entry result }
    {
        self.past_such(|b| b != b'\n')
    }

    // Behind a word, where it stands: only there is its end a place of the text, so that the end is worked out behind the test; the closure of
    // a `then` would have that clause once more.
    pub fn past_word(self, word: &[u8]) -> Option<Text<'a>>
        ensures { Found (begins word.now (left self.entry)) (Reads (Behind (word_end word.now)) self.entry) result }
    {
        if self.bytes[self.at..].starts_with(word) {
            Some(Text {
                bytes: self.bytes,
                at: self.at + word.len(),
            })
        } else {
            None
        }
    }

    // Behind one blank or more.
    pub fn past_some_blanks(self) -> Option<Text<'a>>
        ensures { Found (takes blanks_end self.entry) (Reads (Behind blanks_end) self.entry) result }
    {
        let end = self.past_blanks();
        (self.at < end.at).then_some(end)
    }

    // The digits, be there any or none. A text is mostly numbers, so that the one loop both looks for their end and reads them.
    fn digits(self) -> Number<'a>
        ensures { Reads NumberAt self.entry result }
    {
        let mut value = 0;
        for (passed, &digit) in self.bytes[self.at..].iter().enumerate() {
            if !digit.is_ascii_digit() {
                return Number {
                    value,
                    rest: Text {
                        bytes: self.bytes,
                        at: self.at + passed,
                    },
                };
            }
            value = with_digit(value, digit);
        }
        Number {
            value,
            rest: Text {
                bytes: self.bytes,
                at: self.bytes.len(),
            },
        }
    }

    // A number, which has a digit at least.
    pub fn number(self) -> Option<Number<'a>>
        ensures { Found (takes digits_end self.entry) (Reads NumberAt self.entry) result }
    {
        let number = self.digits();
        (self.at < number.rest.at).then_some(number)
    }
}
