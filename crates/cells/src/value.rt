// What a field holds, gathered byte by byte into a few numbers: two names of at most 16 bytes are then compared without their bytes.
ghost use Rattle.std.specs.Prelude.{◌≡◌};
ghost use Rattle.cells.specs.Values.{no_bytes, too_long, with_byte, with_digit, more_digits, added, same_value};

// The longest value that is told apart; all longer ones are alike.
const LONGEST: usize = 16;

// The bytes that the first of the two numbers of a name holds.
const HALF: usize = 8;

// A value's length, its bytes as two numbers to the base 256, and the number that they say where all of them are digits.
#[derive(Clone, Copy)]
pub struct Value {
    pub length: usize,
    pub low: u64,
    pub high: u64,
    pub number: Option<u64>,
}

pub fn empty() -> Value
    ensures { result ≡ no_bytes }
{
    Value {
        length: 0,
        low: 0,
        high: 0,
        number: Some(0),
    }
}

// The value of more bytes. It is a value and no absence of one: a field that is too long is read on to its end, and compared as the others are, so that each
// of the two would have to take an absent value apart and give one back.
fn too_long() -> Value
    ensures { result ≡ too_long }
{
    Value {
        length: LONGEST + 1,
        low: 0,
        high: 0,
        number: None,
    }
}

// A number to the base 256 with one byte more; of nine bytes the first is lost.
fn with_byte(n: u64, b: u8) -> u64
    ensures { result ≡ with_byte n b }
{
    n % 72057594037927936 * 256 + u64::from(b)
}

// A decimal number with one digit more. It is no number to another base of the function above: it counts what the byte stands for, and that one the byte
// itself, and the two are cut at different sizes. The characters 0 to 9 are 48 to 57, so that a digit is what its character leaves by 16.
fn with_digit(n: u64, b: u8) -> u64
    ensures { result ≡ with_digit n b }
{
    n % 4294967296 * 10 + u64::from(b % 16)
}

// The number that digits say, with another behind them. It is none where it was none before, or where the byte is no digit.
fn more_digits(number: Option<u64>, b: u8) -> Option<u64>
    ensures { result ≡ more_digits number b }
{
    let number = number?;
    b.is_ascii_digit().then_some(with_digit(number, b))
}

// The value with one byte more.
pub fn with(v: Value, b: u8) -> Value
    ensures { result ≡ added v b }
{
    if LONGEST <= v.length {
        return too_long();
    }
    let length = v.length + 1;
    let number = more_digits(v.number, b);
    if v.length < HALF {
        return Value {
            length,
            low: with_byte(v.low, b),
            number,
            ..v
        };
    }
    Value {
        length,
        high: with_byte(v.high, b),
        number,
        ..v
    }
}

// Whether two values are the same bytes, where both have at most 16; all longer ones are alike. It is no derived equality, for that would
// compare the numbers too, which the bytes already say.
pub fn same(a: Value, b: Value) -> bool
    ensures { result ≡ same_value a b }
{
    (a.length, a.low, a.high) == (b.length, b.low, b.high)
}
