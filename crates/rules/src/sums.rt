// The sums of a rule's terms under an assignment, in one pass over them.
ghost use Rattle.std.specs.Prelude.{◌≡◌, cond, ◌+◌, ◌<◌, nat_abs};
ghost use Rattle.words.specs.Words.{word_at, signed};
ghost use Rattle.rules.specs.Terms.{bits_in, terms_at, Readable};
ghost use Rattle.rules.specs.Sums.{Summed, AddedWeight, held_in};

use crate::entry::Entry;
use crate::term::value_of;
use words::{magnitude, to_signed, word};

// K, what the bounds rise by, and P.
#[derive(Clone, Copy)]
pub struct Sums {
    pub k: u32,
    pub rise: u32,
    pub p: u32,
}

// What is kept over the terms: the sum of the weights' sizes, that of the weights and that of the weights of true variables. The last two are sums of words as
// they stand in the table, and wrap where a weight is negative. So a term costs three additions, and whether its literal is negated or true is not asked: the
// sizes are above the weights by twice what the bounds rise by, and what a negative weight takes too much from P, the rise gives back at the end.
#[derive(Clone, Copy)]
struct Running {
    sizes: u32,
    weights: u32,
    trues: u32,
}

// A number where a test holds, else 0. The test is a fact of the term, as the definition's `cond` has it.
fn only_if(test: bool, n: u32) -> u32
    ensures { result ≡ cond test n 0 }
{
    if test { n } else { 0 }
}

impl Running {
    // Those of no terms.
    const NONE: Running = Running {
        sizes: 0,
        weights: 0,
        trues: 0,
    };

    // Those with one more term in front, of which these are the weight's word and the variable's value.
    fn with(self, weight: u32, value: bool) -> Running
        requires { nat_abs (signed weight) + self.sizes < 4294967296 }
        ensures { AddedWeight weight value self result }
    {
        Running {
            sizes: magnitude(to_signed(weight)) + self.sizes,
            weights: self.weights.wrapping_add(weight),
            trues: self.trues.wrapping_add(only_if(value, weight)),
        }
    }

    // What they come to.
    fn sums(self) -> Sums
        ensures { result ≡ held_in self }
    {
        let rise = self.sizes.wrapping_sub(self.weights) / 2;
        Sums {
            k: self.sizes,
            rise,
            p: self.trues.wrapping_add(rise),
        }
    }
}

impl Entry {
    // The sums of its terms. They are taken from the last to the first: what is summed is then that of a rest of the list. They are told by their places in the
    // whole table, as in `find`: the definition (`terms_at`) has first and count.
    pub fn scan(self, terms: &[u8], assignment: &[u8]) -> Sums
        requires { Readable terms.now assignment.now self.first self.count }
        ensures { Summed (bits_in assignment.now) (terms_at (word_at terms.now) self.first self.count) result }
    {
        let mut running = Running::NONE;
        for k in (0..self.count).rev() {
            let i = self.first + k;
            let value = value_of(assignment, word(terms, 2 * i));
            running = running.with(word(terms, 2 * i + 1), value);
        }
        running.sums()
    }
}
