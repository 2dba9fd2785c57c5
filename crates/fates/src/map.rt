// A map of variables, lent to be read, and what it says of one of them.
ghost use Rattle.std.specs.Prelude.{◌≤◌, length};
ghost use Rattle.fates.specs.Codes.{map_size};

// A word for each number from 0 to 512 says what becomes of the variable.
#[derive(Clone, Copy)]
pub struct Map<'a> {
    pub words: &'a [u8],
    pub ghost whole: { map_size ≤ length words.now },
}

// What becomes of a variable: it is locked at a value, or goes on by a new number.
#[derive(Clone, Copy)]
pub enum Code {
    Locked(bool),
    New(u32),
}
