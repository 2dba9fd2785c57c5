// Flip: one variable is turned over, and the tallies that concern it follow.
ghost use Rattle.std.specs.Prelude.{◌≡◌};
ghost use Rattle.tallies.specs.Calls.{flip_assignment, flip_refusal, flip_rules, flip_tallies, lent};

use crate::tests::Lent;
use flips::flip_core;

// The refusal, and how many rule tallies were rewritten: a struct of the C interface, so a number and no Result.
#[repr(C)]
#[derive(Clone, Copy)]
pub struct Flipped {
    pub refusal: u32,
    pub rules: u32,
}

// The C interface lends the buffers one by one.
pub fn flip(
    tables: &[u8],
    terms: &[u8],
    assignment: &mut [u8],
    tallies: &mut [u8],
    x: u32,
) -> Flipped
    ensures refusal_value { result.refusal ≡ flip_refusal (lent tables.now terms.now assignment.old tallies.old) x }
    ensures rules_value { result.rules ≡ flip_rules (lent tables.now terms.now assignment.old tallies.old) x }
    ensures assignment_after { assignment.new
        ≡ flip_assignment (lent tables.now terms.now assignment.old tallies.old) x }
    ensures tallies_after { tallies.new
        ≡ flip_tallies (lent tables.now terms.now assignment.old tallies.old) x }
{
    let lent = Lent {
        tables,
        terms,
        assignment,
        tallies,
    };
    let t = match lent.flip_refusal(x) {
        Ok(t) => t,
        Err(refusal) => {
            return Flipped {
                refusal: u32::from(refusal),
                rules: 0,
            };
        }
    };
    let rules = flip_core(&t, assignment, tallies, x);
    Flipped { refusal: 0, rules }
}
