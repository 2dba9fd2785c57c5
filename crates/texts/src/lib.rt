// Texts as lists of bytes: numbers in decimal, items with a space between them, lines. Definitions in specs/, laws in proofs/.
#![tactic(auto)]

ghost use Rattle.std.specs.Prelude.{◌≡◌, ◌<◌};
ghost use Rattle.texts.specs.Texts.{digit as digitOf};

// The library's `char::from_digit` gives a character, and that there is one is to be proved of its answer: it would be opened and made a byte again.
pub fn digit(d: u64) -> u8
    requires { d < 10 }
    ensures { result ≡ digitOf d }
{
    b'0' + (d as u8)
}
