// Opening: the tallies of an assignment, counted afresh.
ghost use Rattle.std.specs.Prelude.{◌≡◌};
ghost use Rattle.tallies.specs.Calls.{open_refusal, open_tallies, lent};

use crate::tests::Lent;
use recount::open::open_core;

// The C interface lends the buffers one by one, and wants a refusal's number, or 0.
pub fn open(tables: &[u8], terms: &[u8], assignment: &[u8], tallies: &mut [u8]) -> u32
    ensures value { result ≡ open_refusal (lent tables.now terms.now assignment.now tallies.old) }
    ensures tallies_after { tallies.new
        ≡ open_tallies (lent tables.now terms.now assignment.now tallies.old) }
{
    let lent = Lent {
        tables,
        terms,
        assignment,
        tallies,
    };
    let t = match lent.open_refusal() {
        Ok(t) => t,
        Err(refusal) => return u32::from(refusal),
    };
    open_core(&t, assignment, tallies);
    0
}
