// The lines of the clauses, put into a lent buffer. The buffer and the place in it stay two parameters, as in spelling.
// So do the two tables outside `Several`: each function here needs another fact about them, and none needs that they hold a whole plan.
#![tactic(auto)]

ghost use Rattle.std.specs.Prelude.{◌≡◌, ◌+◌, ◌*◌, ◌<◌, ◌≤◌, length};
ghost use Rattle.words.specs.Words.{word_at};
ghost use Rattle.format.specs.Layout.{clause_first_at, clause_count_at};
ghost use Rattle.format.specs.Tables.{clause_of};
ghost use Rattle.opb.specs.Tau.{rules_lines, or_lines, clause_lines, clauses_lines};
ghost use Rattle.spelling.specs.Overlay.{Puts, Room};
ghost use Rattle.constraints.specs.Bytes.{sum_bytes, lines_bytes};
ghost use Rattle.clauselines.specs.Clauses.{atom_terms, atom_count, clauses_in, ClauseFits, ClausesFit};
ghost use Rattle.clauselines.specs.Several.{several};

mod several;

use constraints::{Relation, put_end, put_term};
use rulelines::{put_rule, put_straight};
use several::Several;
use words::index;

impl Several<'_> {
    // The sum of (15).
    fn put_atoms(&self, out: &mut [u8], at: usize) -> usize
        requires { Room at (sum_bytes (atom_terms self.now.before self.now.count)) }
        ensures { Puts (sum_bytes (atom_terms self.now.before self.now.count)) at out.old out.new result }
    {
        let mut next = at;
        for i in 0..self.count {
            next = put_term(out, next, 1, self.before + 3 * i + 3);
        }
        next
    }

    fn put_rules(&self, out: &mut [u8], at: usize) -> usize
        requires { Room at (lines_bytes (rules_lines self.now.before (several self.now))) }
        ensures { Puts (lines_bytes (rules_lines self.now.before (several self.now))) at out.old out.new result }
    {
        let mut next = at;
        for i in 0..self.count {
            next = put_rule(
                out,
                next,
                self.tables,
                self.terms,
                self.first + i,
                self.before + 3 * i,
            );
        }
        next
    }

    // (15), then the rules' lines.
    fn put(&self, out: &mut [u8], at: usize) -> usize
        requires { Room at (lines_bytes (or_lines self.now.before (several self.now))) }
        ensures { Puts (lines_bytes (or_lines self.now.before (several self.now))) at out.old out.new result }
    {
        let a = self.put_atoms(out, at);
        let b = put_end(out, a, Relation::AtLeast, 1);
        self.put_rules(out, b)
    }
}

// Clause c, with k variables before those that it takes.
fn put_clause(out: &mut [u8], at: usize, tables: &[u8], terms: &[u8], c: usize, k: usize) -> usize
    requires clause_fits { ClauseFits tables.now terms.now c k }
    requires room { Room at (lines_bytes (clause_lines k (clause_of (word_at tables.now) (word_at terms.now) c))) }
    ensures { Puts (lines_bytes (clause_lines k (clause_of (word_at tables.now) (word_at terms.now) c))) at
        out.old out.new result }
{
    let first = index(tables, format::CLAUSES + 2 * c);
    let count = index(tables, format::CLAUSE_COUNT + 2 * c);
    if count == 1 {
        return put_straight(out, at, tables, terms, first);
    }
    let rules = Several {
        tables,
        terms,
        first,
        count,
        before: k,
    };
    rules.put(out, at)
}

// How many new variables clause c takes: three for each of its rules, none where it has one.
pub fn new_atoms(tables: &[u8], c: usize) -> usize
    requires { (4 * clause_first_at c + 8 ≤ length tables.now) × (word_at tables.now (clause_count_at c) ≤ 1_024) }
    ensures { result ≡ atom_count (word_at tables.now (clause_count_at c)) }
{
    let count = index(tables, format::CLAUSE_COUNT + 2 * c);
    if count == 1 { 0 } else { 3 * count }
}

pub fn put_clauses(out: &mut [u8], at: usize, tables: &[u8], terms: &[u8]) -> usize
    requires clauses_fit { ClausesFit tables.now terms.now }
    requires room { Room at (lines_bytes (clauses_lines (word_at tables.now 0)
        (clauses_in (word_at tables.now) (word_at terms.now) 0 (word_at tables.now 1)))) }
    ensures { Puts (lines_bytes (clauses_lines (word_at tables.now 0)
        (clauses_in (word_at tables.now) (word_at terms.now) 0 (word_at tables.now 1)))) at
        out.old out.new result }
{
    let clauses = index(tables, 1);
    let mut next = at;
    let mut k = index(tables, 0);
    for c in 0..clauses {
        next = put_clause(out, next, tables, terms, c, k);
        k += new_atoms(tables, c);
    }
    next
}
