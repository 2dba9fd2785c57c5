// Counts, which are cut above 4,294,967,295.
ghost use Rattle.std.specs.Prelude.{◌≡◌, ◌+◌, ◌*◌, ◌<◌, ltb};
ghost use Rattle.plpb.specs.Count.{cap, given, capped};
ghost use Rattle.counting.specs.Count.{number, count_words, marked_words};

use std::ops::{Add, Mul};

// A count is one number and not a value with a mark: any number above 4,294,967,295 says that it was cut, and no more. So sums and products of counts are
// those of numbers, which may stop where 64 bits do, and nothing is cut on the way. C sees the value and the mark that were asked for (docs/DECISIONS.md)
// in `Marked`.
#[derive(Clone, Copy)]
pub struct Count {
    n: u64,
}

// A count as it is given out to C: its value, and 1 where it was cut, else 0. The C interface has this layout.
#[repr(C)]
#[derive(Clone, Copy)]
pub struct Marked {
    pub value: u32,
    pub cut: u32,
}

impl Marked {
    pub const ZERO: Marked = Marked { value: 0, cut: 0 };
}

impl Count {
    pub const ZERO: Count = Count { n: 0 };

    pub const ONE: Count = Count { n: 1 };

    // 4,294,967,295 itself.
    pub const CAP: Count = Count { n: 4294967295 };

    // Every number above it.
    pub const CUT: Count = Count { n: 4294967296 };

    // Where it stands among counts: a cut one above all others, and two cut ones alike. A derived order would tell these apart.
    pub fn rank(self) -> u64
        ensures { (result ≡ number self) × (result < 4294967297) }
    {
        self.n.min(Count::CUT.n)
    }

    pub fn is_cut(self) -> bool
        ensures { result ≡ ltb cap (number self) }
    {
        Count::CAP.n < self.n
    }
}

// The count of a number of 32 bits, which is never cut.
impl From<u32> for Count {
    ghost from_gives = { λ n c. number c ≡ n };

    fn from(value: u32) -> Count {
        Count {
            n: u64::from(value),
        }
    }
}

// The count of a number of 64 bits.
impl From<u64> for Count {
    ghost from_gives = { λ n c. number c ≡ capped n };

    fn from(n: u64) -> Count {
        Count { n }
    }
}

// A count as it is given out.
impl From<Count> for Marked {
    ghost from_gives = { λ c m. marked_words m ≡ count_words (given (number c)) };

    fn from(count: Count) -> Marked {
        Marked {
            value: count.n.min(Count::CAP.n) as u32,
            cut: u32::from(count.is_cut()),
        }
    }
}

impl Add for Count {
    type Output = Count;

    ghost add_gives = { λ a b c. number c ≡ capped (number a + number b) };

    fn add(self, other: Count) -> Count {
        Count {
            n: self.n.saturating_add(other.n),
        }
    }
}

impl Mul for Count {
    type Output = Count;

    ghost mul_gives = { λ a b c. number c ≡ capped (number a * number b) };

    fn mul(self, other: Count) -> Count {
        Count {
            n: self.n.saturating_mul(other.n),
        }
    }
}
