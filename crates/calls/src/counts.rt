// Counts: how many clauses of the expansion a variable's flip would spoil and mend.
ghost use Rattle.std.specs.Prelude.{◌≡◌};
ghost use Rattle.counting.specs.Count.{count_words, marked_words};
ghost use Rattle.tallies.specs.Calls.{call_refusal, counts_break, counts_make, lent};

use crate::tests::Lent;
use counting::count::Marked;
use exact::counts_core;

// The refusal and the two counts: a struct of the C interface, so a number and no Result.
#[repr(C)]
#[derive(Clone, Copy)]
pub struct Counted {
    pub refusal: u32,
    pub breaks: Marked,
    pub makes: Marked,
}

// The C interface lends the buffers one by one.
pub fn counts(tables: &[u8], terms: &[u8], assignment: &[u8], tallies: &[u8], x: u32) -> Counted
    ensures refusal_value { result.refusal ≡ call_refusal (lent tables.now terms.now assignment.now tallies.now) x }
    ensures breaks_value { marked_words result.breaks
        ≡ count_words (counts_break (lent tables.now terms.now assignment.now tallies.now) x) }
    ensures makes_value { marked_words result.makes
        ≡ count_words (counts_make (lent tables.now terms.now assignment.now tallies.now) x) }
{
    let lent = Lent {
        tables,
        terms,
        assignment,
        tallies,
    };
    let t = match lent.call_refusal(x) {
        Ok(t) => t,
        Err(refusal) => {
            return Counted {
                refusal: u32::from(refusal),
                breaks: Marked::ZERO,
                makes: Marked::ZERO,
            };
        }
    };
    let c = counts_core(&t, assignment, x);
    Counted {
        refusal: 0,
        breaks: Marked::from(c.breaks),
        makes: Marked::from(c.makes),
    }
}
