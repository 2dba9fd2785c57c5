// What is lent to be read.
ghost use Rattle.std.specs.Prelude.{◌≡◌, ◌≤◌, length, take};
ghost use Rattle.recount.specs.Plans.{plan as planOf};

use crate::tables::Tables;
use words::index;

// A plan's tables and an assignment's bits, a byte for each of its variables at least.
#[derive(Drop)]
pub struct Lent<'a> {
    pub plan: Tables<'a>,
    pub bits: &'a [u8],
    pub ghost bytes: { (planOf plan).variables ≤ length bits.now },
}

impl<'a> Lent<'a> {
    // Of an assignment that may be longer the bytes of the plan's variables: what opening writes is of them alone.
    pub fn of(plan: Tables<'a>, assignment: &'a [u8]) -> Lent<'a>
        requires { (planOf plan).variables ≤ length assignment.now }
        ensures { (result.plan ≡ plan.entry) × (result.bits.now ≡ take (planOf plan.entry).variables assignment.now) }
    {
        let n = index(plan.tables, 0);
        Lent {
            plan,
            bits: &assignment[..n],
        }
    }
}
