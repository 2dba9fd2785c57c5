// Opening: the tallies of an assignment, and 0 in unused entries.
ghost use Rattle.std.specs.Prelude.{◌≡◌, ◌≤◌, length};
ghost use Rattle.tallies.specs.Layout.{tally_size};
ghost use Rattle.recount.specs.Core.{recounted};
ghost use Rattle.recount.specs.Plans.{plan};

use crate::lent::Lent;
use crate::tables::Tables;
use words::clear;

// What stands past the tallies' full limits is left as it is.
pub fn open_core(t: &Tables<'_>, assignment: &[u8], tallies: &mut [u8])
    requires { ((plan t.now).variables ≤ length assignment.now) × (tally_size ≤ length tallies.old) }
    ensures { tallies.new ≡ recounted t.now.tables.now t.now.terms.now assignment.now tallies.old }
{
    clear(&mut tallies[..format::TALLIES]);
    Lent::of(*t, assignment).recount(tallies);
}
