// A plan's text put into a lent buffer: the first line, the objective, the clauses and the locks.
// The buffer and the place in it stay two parameters, as in spelling.
#![tactic(auto)]

ghost use Rattle.std.specs.Prelude.{◌<◌};
ghost use Rattle.words.specs.Words.{word_at};
ghost use Rattle.format.specs.Tables.{objective_of};
ghost use Rattle.opb.specs.Spell.{spell_first, spell_objective, spell};
ghost use Rattle.opb.specs.Tau.{tau};
ghost use Rattle.spelling.specs.Overlay.{Puts, Room};
ghost use Rattle.constraints.specs.Bytes.{sum_bytes, lines_bytes};
ghost use Rattle.opbtext.specs.Whole.{lock_lines};
ghost use Rattle.opbtext.specs.Parts.{coefficients, locks, plan};

pub mod lent;

use clauselines::put_clauses;
use constraints::{put_lock, put_term};
use lent::Whole;
use linecount::entries::Entries;
use linecount::some_words;
use spelling::{put_bytes, put_decimal};
use words::{index, to_signed, word};

// The first line.
fn put_first(out: &mut [u8], at: usize, count: usize, lines: usize) -> usize
    requires { Room at (spell_first count lines) }
    ensures { Puts (spell_first count lines) at out.old out.new result }
{
    let a = put_bytes(out, at, b"* #variable= ");
    let b = put_decimal(out, a, count as u64);
    let c = put_bytes(out, b, b" #constraint= ");
    let d = put_decimal(out, c, lines as u64);
    put_bytes(out, d, b"\n")
}

impl Whole<'_> {
    // The objective's terms: a variable with the coefficient 0 has none. This loop and that of the locks have only their form in common: one function for both
    // would take a closure that is lent the buffer anew at each call, whose clauses are all that the two loops say. Both count from 0, as the definitions of
    // what is put do (`dense_terms` and `lock_lines` have the variables above i): from 1 on, the clauses of a variable and both invariants would have x - 1 in
    // place of i.
    fn put_coefficients(&self, out: &mut [u8], at: usize) -> usize
        requires { Room at (sum_bytes (coefficients self.now)) }
        ensures { Puts (sum_bytes (coefficients self.now)) at out.old out.new result }
    {
        let n = index(self.tables, 0);
        let mut next = at;
        for i in 0..n {
            let weight = to_signed(word(self.tables, format::OBJECTIVE + 1 + i));
            next = put_term(out, next, weight, i + 1);
        }
        next
    }

    // "no `min:` without a term"
    fn put_objective(&self, out: &mut [u8], at: usize) -> usize
        requires { Room at (spell_objective (objective_of (word_at self.now.tables.now))) }
        ensures { Puts (spell_objective (objective_of (word_at self.now.tables.now))) at out.old out.new result }
    {
        let n = index(self.tables, 0);
        if some_words(self.tables, format::OBJECTIVE, n) == 0 {
            return at;
        }
        let a = put_bytes(out, at, b"min: ");
        let b = self.put_coefficients(out, a);
        put_bytes(out, b, b";\n")
    }

    // The line of the variable above i, where it is locked. A lock is a word of the lent table, 0 for none, 1 or 2 for a value, as the
    // definition of the lines (`lock_lines`) asks it.
    fn put_locked(&self, out: &mut [u8], at: usize, i: usize) -> usize
        requires few { i < word_at self.now.tables.now 0 }
        requires room { Room at (lines_bytes (lock_lines self.now.tables.now i 1)) }
        ensures { Puts (lines_bytes (lock_lines self.now.tables.now i 1)) at out.old out.new result }
    {
        let lock = word(self.tables, format::LOCKS + 1 + i);
        if lock == 0 {
            return at;
        }
        put_lock(out, at, i + 1, 1 < lock)
    }

    fn put_locks(&self, out: &mut [u8], at: usize) -> usize
        requires { Room at (lines_bytes (locks self.now)) }
        ensures { Puts (lines_bytes (locks self.now)) at out.old out.new result }
    {
        let n = index(self.tables, 0);
        let mut next = at;
        for i in 0..n {
            next = self.put_locked(out, next, i);
        }
        next
    }

    // The whole text. Answers its length.
    pub fn put_text(&self, out: &mut [u8]) -> usize
        requires { Room 0 (spell (tau (plan self.now))) }
        ensures { Puts (spell (tau (plan self.now))) 0 out.old out.new result }
    {
        let n = index(self.tables, 0);
        let entries = Entries {
            tables: self.tables,
        };
        let lines = entries.clauses_lines() + some_words(self.tables, format::LOCKS, n);
        let a = put_first(out, 0, entries.variables(), lines);
        let b = self.put_objective(out, a);
        let c = put_clauses(out, b, self.tables, self.terms);
        self.put_locks(out, c)
    }
}
