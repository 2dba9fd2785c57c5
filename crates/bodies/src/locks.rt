// The test of a field of locks: "5 for a wrong number as in terms, 10 for another value (after 5 of that entry)".
ghost use Rattle.std.specs.Prelude.{◌≡◌, ◌/◌, length};
ghost use Rattle.format.specs.File.{entries_fault};
ghost use Rattle.bodies.specs.Faults.{found};
ghost use Rattle.bodies.specs.Locks.{entry_fault};

use crate::Fault;
use crate::rising::Rising;

fn entry_fault(variable: u32, value: u8, numbers: Rising) -> Result<(), Fault>
    ensures { found result ≡ entry_fault numbers.variables numbers.before variable value }
{
    if !numbers.takes(variable) {
        return Err(Fault::WrongTerm);
    }
    if 1 < value {
        return Err(Fault::WrongLock);
    }
    Ok(())
}

// Entries one behind the other, each read at its place as terms are.
pub fn entries_fault(entries: &[u8], variables: u32) -> Result<(), Fault>
    ensures { found result ≡ entries_fault variables 0 entries.now 0 (length entries.now / 3) }
{
    let mut numbers = Rising {
        before: 0,
        variables,
    };
    for i in 0..entries.len() / 3 {
        let at = 3 * i;
        let variable = words::read_u16(entries, at);
        entry_fault(variable, entries[at + 2], numbers)?;
        numbers.before = variable;
    }
    Ok(())
}
