// A text lent to be read.
ghost use Rattle.std.specs.Prelude.{◌≡◌, ◌≤◌, length};

// What is still to be read of a text: its bytes from a place on. A refusal names a statement by its place in the whole text, so that a slice of what is left
// would need that place beside it.
#[derive(Clone, Copy)]
pub struct Text<'a> {
    pub bytes: &'a [u8],
    pub at: usize,
    pub ghost within: { at ≤ length bytes.now },
}

// The whole of its bytes is still to be read.
impl<'a> From<&'a [u8]> for Text<'a> {
    ghost from_gives = { λ bytes text. (text.bytes.now ≡ bytes.now) × (text.at ≡ 0) };

    fn from(bytes: &'a [u8]) -> Text<'a> {
        Text { bytes, at: 0 }
    }
}
