// What a search tests of what it is lent and set, in the order of document 01: 21 for room, 22 for tables that hold no lawful plan, then the settings' own
// numbers, which are 11 to 14 and behind them 15 and 16 for the choice; and how it clears what it worked in.
// The buffers to write come one by one, each with its size in the contract, as `search` has them.
#![tactic(auto)]

ghost use Rattle.std.specs.Prelude.{◌≡◌, ◌++◌, ◌≤◌, length, drop, replicate};
ghost use Rattle.format.specs.Layout.{table_size, term_size};
ghost use Rattle.columns.specs.Layout.{column_size, kept_size};
ghost use Rattle.format.specs.Assignment.{assignment_size};
ghost use Rattle.lending.specs.Lent.{search_refusal, lent_in, tables_small, work_small};
ghost use Rattle.lending.specs.Work.{work};

use loaded::good;
use settings::{Settings, settings_refusal};
use words::clear;

// All that a search is lent, to be read: the plan's tables, the list of numbers, the assignment, and what it works in.
#[derive(Clone, Copy)]
pub struct Lent<'a> {
    pub tables: &'a [u8],
    pub terms: &'a [u8],
    pub numbers: &'a [u8],
    pub assignment: &'a [u8],
    pub work_tables: &'a [u8],
    pub work_terms: &'a [u8],
    pub work_assignment: &'a [u8],
    pub work_tallies: &'a [u8],
    pub work_marks: &'a [u8],
}

// Whether tables, terms or assignment have less room than the full limits need.
fn tables_small(tables: &[u8], terms: &[u8], assignment: &[u8]) -> bool
    ensures { result ≡ tables_small tables.now terms.now assignment.now }
{
    if tables.len() < format::TABLES {
        return true;
    }
    if terms.len() < format::TERMS {
        return true;
    }
    assignment.len() < format::ASSIGNMENT
}

impl Lent<'_> {
    fn work_small(&self) -> bool
        ensures { result
            ≡ work_small self.now.work_tables.now self.now.work_terms.now
            (work self.now.work_assignment.now self.now.work_tallies.now self.now.work_marks.now) }
    {
        if tables_small(self.work_tables, self.work_terms, self.work_assignment) {
            return true;
        }
        if self.work_tallies.len() < columns::KEPT {
            return true;
        }
        self.work_marks.len() < columns::COLUMNS
    }

    // The number of the first test that fails, 0 for none: the C interface gives it out as it is. Why it is no enum stands at `settings::settings_refusal`.
    pub fn refusal(&self, s: Settings) -> u32
        ensures { result ≡ search_refusal (lent_in self.now) s }
    {
        if tables_small(self.tables, self.terms, self.assignment) {
            return 21;
        }
        if self.work_small() {
            return 21;
        }
        if !good(self.tables, self.terms) {
            return 22;
        }
        settings_refusal(s)
    }
}

// Fills the first n bytes with 0. A count goes with the slice, because what stands behind them is lent too. It is a function for its
// clause, which `clear_work` rests on five times, and `reports` calls it twice.
pub fn clear_first(s: &mut [u8], n: usize)
    requires { n ≤ length s.old }
    ensures { s.new ≡ replicate n 0 ++ drop n s.old }
{
    clear(&mut s[..n]);
}

// "The work tables end filled with 0."
pub fn clear_work(
    tables: &mut [u8],
    terms: &mut [u8],
    tried: &mut [u8],
    tallies: &mut [u8],
    marks: &mut [u8],
)
    requires { (table_size ≤ length tables.old) × (term_size ≤ length terms.old) × (assignment_size ≤ length tried.old)
        × (kept_size ≤ length tallies.old) × (column_size ≤ length marks.old) }
    ensures tables_after { tables.new ≡ replicate table_size 0 ++ drop table_size tables.old }
    ensures terms_after { terms.new ≡ replicate term_size 0 ++ drop term_size terms.old }
    ensures tried_after { tried.new ≡ replicate assignment_size 0 ++ drop assignment_size tried.old }
    ensures tallies_after { tallies.new ≡ replicate kept_size 0 ++ drop kept_size tallies.old }
    ensures marks_after { marks.new ≡ replicate column_size 0 ++ drop column_size marks.old }
{
    clear_first(tables, format::TABLES);
    clear_first(terms, format::TERMS);
    clear_first(tried, format::ASSIGNMENT);
    clear_first(tallies, columns::KEPT);
    clear_first(marks, columns::COLUMNS);
}
