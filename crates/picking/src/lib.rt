// A pick among variables that stand in a list of words. The numbers and how many of them are used come as two, as in `numbers`.
#![tactic(auto)]

ghost use Rattle.std.specs.Prelude.{◌≡◌, ℕ, T, ltb};
ghost use Rattle.plpb.specs.Lists.{all};
ghost use Rattle.plpb.specs.Choice.{pick_from};
ghost use Rattle.words.specs.Words.{word_at};
ghost use Rattle.columns.specs.Columns.{words_from};
ghost use Rattle.numbers.specs.Numbers.{numbers_of};
ghost use Rattle.picking.specs.Outcome.{Chooses, PickListed, is_one};

use numbers::{Drawn, Short, pick};
use words::word;

// The variable that is chosen, and how many numbers are used after the choice.
pub type Chosen = Drawn<u32>;

// Whether a number drawn among 1,000 is under a chance. It is a function for its clause: three proofs cite whether the number is under the chance.
pub fn is_below(r: usize, chance: u32) -> bool
    ensures { result ≡ ltb r chance }
{
    r < chance as usize
}

// A pick among the m variables in the words from one on. A pick is among a count, so the list comes as its first word and its count: a range would be taken
// apart here, and put together by the callers that have a count.
pub fn pick_listed(
    numbers: &[u8],
    used: usize,
    marks: &[u8],
    at: usize,
    m: usize,
) -> Result<Chosen, Short>
    requires { PickListed numbers.now used marks.now at m }
    ensures { (n : ℕ) → T (all (is_one n) (words_from (word_at marks.now) at m))
        → Chooses (pick_from 0 (words_from (word_at marks.now) at m)) (numbers_of numbers.now) used n result }
{
    let drawn = pick(numbers, used, m)?;
    Ok(Drawn {
        value: word(marks, at + drawn.value),
        used: drawn.used,
    })
}
