// What is said of a plan file, and the same in numbers.
#![tactic(auto)]

ghost use Rattle.std.specs.Prelude.{◌≡◌};
ghost use Rattle.verdict.specs.Answers.{refusal_of, offset_of};

// A refusal carries its number and its offset: a number, as the C interface gives it, since plan files and OPB texts have faults of their own. So is 21, for a
// buffer that is too short, which each call answers before a file is read.
#[derive(Clone, Copy, PartialEq, Eq)]
pub struct Refusal {
    pub number: u32,
    pub offset: usize,
}

impl Refusal {
    // Of a buffer that is lent too short: 21, and no place in a file.
    pub const TOO_SHORT: Refusal = Refusal {
        number: 21,
        offset: 0,
    };
}

// The same in two numbers, as the C interface hands it over: 0 and 0 where nothing is refused.
#[repr(C)]
#[derive(Clone, Copy)]
pub struct Loaded {
    pub refusal: u32,
    pub offset: usize,
}

impl From<Result<(), Refusal>> for Loaded {
    ghost from_gives = { λ answer loaded. (loaded.refusal ≡ refusal_of answer) × (loaded.offset ≡ offset_of answer) };

    #[tactic(auto, unfolding(crate::specs::Answers::refusal_of, crate::specs::Answers::offset_of))]
    fn from(answer: Result<(), Refusal>) -> Loaded {
        match answer {
            Ok(()) => Loaded {
                refusal: 0,
                offset: 0,
            },
            Err(refusal) => Loaded {
                refusal: refusal.number,
                offset: refusal.offset,
            },
        }
    }
}
