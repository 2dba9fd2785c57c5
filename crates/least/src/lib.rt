// Which variables of a clause have the least break count: each count is given up above the least so far. The marks come by themselves, as in `picks`: one part
// of them is read while another is written, which a struct with them in it would not let be proved.
#![tactic(auto)]

ghost use Rattle.std.specs.Prelude.{◌≡◌};
ghost use Rattle.plpb.specs.Count.{capped_break};
ghost use Rattle.plpb.specs.Choice.{least_break, with_break};
ghost use Rattle.words.specs.Words.{word_at};
ghost use Rattle.effects.specs.Footing.{plan_on, bits_on};
ghost use Rattle.picks.specs.Picks.{Picked, Triable};
ghost use Rattle.picks.specs.Choice.{plan, bits, variables, Marked};
ghost use Rattle.least.specs.Best.{place_for, Offered};

use columns::PICKS;
use counting::count::Count;
use effects::Footing;
use picks::{Choice, list_of};
use spoiling::break_by_hint;
use words::{index, narrow, write_word};

// The least count so far, and how many have it. None so far is one above the cap: an `Option` would be opened again for the limit that each count is given.
#[derive(Clone, Copy)]
pub struct Best {
    pub least: u64,
    pub count: usize,
}

fn place_for(n: u64, best: Best) -> usize
    ensures { result ≡ place_for n best }
{
    if n < best.least { 0 } else { best.count }
}

// The variable that word i of the marks lists is offered.
fn offer(footing: &Footing<'_>, marks: &mut [u8], i: usize, best: Best) -> Best
    requires { Triable footing.now marks.old i best.count }
    ensures { Offered (plan_on footing.now) (capped_break (plan_on footing.now) (bits_on footing.now) (word_at marks.old i))
        (word_at marks.old i) best marks.old marks.new result }
{
    let x = index(marks, i);
    let Some(n) = break_by_hint(footing, marks, x, best.least) else {
        return best;
    };
    let at = place_for(n, best);
    write_word(marks, PICKS + at, narrow(x));
    Best {
        least: n,
        count: at + 1,
    }
}

// Writes those of the clause's variables that may be chosen whose break count is the least to the picks, in order; answers how many.
pub fn least_of(choice: &Choice<'_>, marks: &mut [u8]) -> usize
    requires { Marked choice.now marks.old }
    ensures { Picked (plan choice.now)
        (with_break (plan choice.now) (bits choice.now) (least_break (plan choice.now) (bits choice.now) (variables choice.now))
        (variables choice.now)) marks.old marks.new result }
{
    let footing = &choice.footing;
    let mut best = Best {
        least: Count::CUT.rank(),
        count: 0,
    };
    for i in list_of(&footing.plan(), marks, choice.clause) {
        best = offer(footing, marks, i, best);
    }
    best.count
}
