// Words of a map decoded.
ghost use Rattle.std.specs.Prelude.{◌≡◌, ◌≤◌};
ghost use Rattle.format.specs.Limits.{max_variables};
ghost use Rattle.fates.specs.Maps.{codes, becomes};

use crate::map::{Code, Map};

impl Map<'_> {
    // What becomes of a variable.
    pub fn code(self, x: usize) -> Code
        requires { x ≤ max_variables }
        ensures { becomes result ≡ codes self.entry x }
    {
        match words::word(self.words, x) {
            crate::OFF => Code::Locked(false),
            crate::ON => Code::Locked(true),
            number => Code::New(number),
        }
    }
}
