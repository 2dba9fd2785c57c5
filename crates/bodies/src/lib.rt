// The tests of what stands in a field's body: a rule's bounds, terms, locks.
#![tactic(auto)]

ghost use Rattle.std.specs.Prelude.{◌≡◌};
ghost use Rattle.bodies.specs.Faults.{number};

pub mod locks;
pub mod rising;
pub mod terms;

// What may be wrong with a field of a plan file.
#[derive(Clone, Copy, PartialEq, Eq)]
pub enum Fault {
    CutShort,
    WrongTag,
    WrongLength,
    TooLarge,
    WrongTerm,
    WrongBound,
    BytesAfterEnd,
    WrongLock,
}

// The number under which docs/REFUSALS.md has the fault. The numbers are not the enum's own: of a cast a law would have to tell each variant's number, as that
// of `progress::Ending` does, and the check finds those of a match alone.
impl From<Fault> for u32 {
    ghost from_gives = { λ fault n. n ≡ number fault };

    fn from(fault: Fault) -> u32 {
        match fault {
            Fault::CutShort => 1,
            Fault::WrongTag => 2,
            Fault::WrongLength => 3,
            Fault::TooLarge => 4,
            Fault::WrongTerm => 5,
            Fault::WrongBound => 6,
            Fault::BytesAfterEnd => 7,
            Fault::WrongLock => 10,
        }
    }
}
