// A word of the order: the place of a term in the plan, with what is asked of it first, whether its clause has more than one rule and whether its
// coefficient is negative. Quotients and remainders by powers of 2 are shifts and masks to the compiler.
#![tactic(auto)]

ghost use Rattle.std.specs.Prelude.{◌≡◌};
ghost use Rattle.plpb.specs.Normal.{is_negative};
ghost use Rattle.words.specs.Words.{signed};
ghost use Rattle.order.specs.Order.{spelled, word_place};
ghost use Rattle.places.specs.Places.{place_of};

use crate::parts::Place;
use words::{narrow, to_signed};

pub mod parts;

// The sign is the lowest bit of a word. Above it stand the rule, the clause, the place among the rule's terms, and whether the clause has more than one rule:
// each constant is the lowest bit of its part.
const RULE: u32 = 2;

pub const CLAUSE: u32 = 4096;

const TERM: u32 = 4194304;

pub const SEVERAL: u32 = 2147483648; // the words of places in clauses of more than one rule begin here

// The rule, the clause and the place among the rule's terms that a word tells: three lines that only look alike, since each part has its own place and its own
// room in the word; one function would be told both, as two numbers that say less than the names do.
pub fn rule_in(w: u32) -> usize
    ensures { result ≡ (word_place w).rule }
{
    (w % CLAUSE / RULE) as usize
}

pub fn clause_in(w: u32) -> usize
    ensures { result ≡ (word_place w).clause }
{
    (w / CLAUSE % 1024) as usize
}

pub fn term_in(w: u32) -> usize
    ensures { result ≡ (word_place w).term }
{
    (w / TERM % 512) as usize
}

// Whether the word of a coefficient stands for a negative one.
pub fn is_negative_word(weight: u32) -> bool
    ensures { result ≡ is_negative (signed weight) }
{
    to_signed(weight).is_negative()
}

impl Place {
    // The word of a place, with what is asked of it first.
    pub fn spell(self, several: bool, negated: bool) -> u32
        ensures { result ≡ spelled several (place_of self) negated }
    {
        SEVERAL * u32::from(several)
            + TERM * narrow(self.term)
            + CLAUSE * narrow(self.clause)
            + RULE * narrow(self.rule)
            + u32::from(negated)
    }
}
