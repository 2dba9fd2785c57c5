// "A try's start still uses all its numbers, then locked variables take their value."
#![tactic(auto)]

ghost use Rattle.std.specs.Prelude.{◌≡◌, ◌≤◌, length};
ghost use Rattle.format.specs.Limits.{max_variables};
ghost use Rattle.format.specs.Layout.{table_size};
ghost use Rattle.locks.specs.Held.{held_by, held_bytes};

// A byte under the word of its variable's lock.
fn held(lock: u32, byte: u8) -> u8
    ensures { result ≡ held_by lock byte }
{
    match format::lock_of(lock) {
        None => byte,
        Some(value) => u8::from(value),
    }
}

// Gives each locked one of n variables its value. n goes with the bytes, because what follows them is lent too and stays as it was. With a sub-slice from the
// caller, it and not this clause would have to say that the rest stays. Why it shares no loop with a try's start stands at `numbers::write_start`.
pub fn hold_locks(tables: &[u8], n: usize, assignment: &mut [u8])
    requires { (n ≤ max_variables) × (n ≤ length assignment.old) × (table_size ≤ length tables.now) }
    ensures { assignment.new ≡ held_bytes tables.now n assignment.old }
{
    for (i, byte) in assignment[..n].iter_mut().enumerate() {
        *byte = held(words::word(tables, format::RULES_END + i), *byte);
    }
}
