// The numbers of variables in a field: "a variable outside 1 to n or not above the one before" is wrong, of terms as of locks.
ghost use Rattle.std.specs.Prelude.{◌≡◌, leb, ltb};
ghost use Rattle.plpb.specs.Lists.{◌and◌};

// The number of the one before, 0 at first, and how many variables there are.
#[derive(Clone, Copy)]
pub struct Rising {
    pub before: u32,
    pub variables: u32,
}

impl Rising {
    // Whether a number may come next.
    pub fn takes(self, variable: u32) -> bool
        ensures { result ≡ (ltb self.before variable and leb variable self.variables) }
    {
        self.before < variable && variable <= self.variables
    }
}
