// What is added up over runs of the search, and the figures of the sums.
#![tactic(auto)]

ghost use Rattle.std.specs.Prelude.{◌≡◌, ◌≤◌, ◌<◌, nat_abs};
ghost use Rattle.counting.specs.Bound.{bound_of};
ghost use Rattle.figures.specs.Figures.{AtMost, mean_cost, figures_by, plus, refused_with};

use fractions::{Fraction, SignedFraction, reduce, reduce_signed};

// The runs with a find, the flips of all runs, and what those with a find cost. That they are no more than so many runs come to is no field of them: the
// bound rises with each run, and sums of 1,000 runs may have one run more added and are then within no bound of 1,000.
#[derive(Clone, Copy)]
pub struct Sums {
    pub found: u64,
    pub flips: u64,
    pub cost: i64,
}

// What is reported, as the C interface takes it, and so with a refusal's number and a mark: three fractions in lowest terms. found is 0 where no run has a
// find: then the mean cost is absent, 0 over 0. With a refusal all else is 0.
#[repr(C)]
#[derive(Clone, Copy)]
pub struct Figures {
    pub refusal: u32,
    pub found: u32,
    pub share: Fraction,
    pub flips: Fraction,
    pub cost: SignedFraction,
}

// What is given out of a mean cost that is absent: 0 over 0.
const ABSENT: SignedFraction = SignedFraction { top: 0, bottom: 0 };

impl Sums {
    // The sums with one run more. Finds and cost come side by side, as a run gives them: an Option of the cost would be made here, only to be opened at once.
    pub fn with(self, finds: u64, flips: u64, cost: i64) -> Sums
        requires { AtMost 1_000 self × (flips ≤ 16_384) × (nat_abs cost ≤ 512_000_000) }
        ensures { result ≡ plus self finds flips cost }
    {
        let sums = Sums {
            flips: self.flips + flips,
            ..self
        };
        if finds == 0 {
            return sums;
        }
        Sums {
            found: self.found + 1,
            cost: self.cost + cost,
            ..sums
        }
    }

    // The mean cost, where some run has a find.
    fn mean_cost(self) -> Option<SignedFraction>
        requires { AtMost 1_000 self }
        ensures { bound_of result ≡ mean_cost self }
    {
        if self.found == 0 {
            return None;
        }
        Some(reduce_signed(self.cost, self.found))
    }

    // The figures of so many runs.
    pub fn figures(self, runs: u64) -> Figures
        requires { (0 < runs) × AtMost 1_000 self }
        ensures { result ≡ figures_by runs self }
    {
        let share = reduce(self.found, runs);
        let flips = reduce(self.flips, runs);
        let cost = self.mean_cost();
        Figures {
            refusal: 0,
            found: u32::from(cost.is_some()),
            share,
            flips,
            cost: cost.unwrap_or(ABSENT),
        }
    }
}

impl Figures {
    // The answer of a call that is refused, by the number that C sees.
    pub fn refused(n: u32) -> Figures
        ensures { result ≡ refused_with n }
    {
        let nothing = Fraction { top: 0, bottom: 0 };
        Figures {
            refusal: n,
            found: 0,
            share: nothing,
            flips: nothing,
            cost: ABSENT,
        }
    }
}
