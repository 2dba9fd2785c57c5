// The variables that may be chosen of each clause, as lists: so a move looks at no term to know them. They are made along the order, variable after
// variable, which is linear in the terms.
// The marks come beside the tables that are read: in one struct with them they would be read while they are lent for writing, which the proof of borrows does
// not cover. So their size and what the lists hold so far stand in each clause, of the marks before and of those after.
#![tactic(auto)]

ghost use Rattle.std.specs.Prelude.{◌≡◌, ◌+◌, ◌*◌, ◌-◌, ◌≤◌, ◌<◌, false, ltb, eqb, length};
ghost use Rattle.plpb.specs.Lists.{◌and◌};
ghost use Rattle.plpb.specs.Plan.{is_locked};
ghost use Rattle.words.specs.Words.{word_at};
ghost use Rattle.format.specs.Layout.{end_at, term_room};
ghost use Rattle.recount.specs.Plans.{plan as planOf};
ghost use Rattle.columns.specs.Layout.{column_size, column_word_count, list_at, list_count_at};
ghost use Rattle.columns.specs.Columns.{terms_ahead, Listed};
ghost use Rattle.columns.specs.Frames.{Only};
ghost use Rattle.listing.specs.Listing.{Listing};

use columns::{LIST_COUNTS, LISTS};
use format::{CLAUSES, LOCKS, ORDER, RULES};
use places::clause_in;
use recount::clause::run_of;
use recount::tables::Tables;
use words::{index, narrow, word, write_word};

// How many terms stand before those of clause c.
pub fn terms_ahead(t: &Tables<'_>, c: usize) -> usize
    requires { c < length (planOf t.now).clauses }
    ensures { result ≡ terms_ahead (planOf t.now) c }
{
    index(t.tables, RULES + 5 * index(t.tables, CLAUSES + 2 * c))
}

// Whether x is the last of the n variables of a list. They are words in lent bytes: the library's `ends_with` would compare the last four bytes with another
// four, and not the number that they stand for with x.
fn ends_with(marks: &[u8], at: usize, n: usize, x: usize) -> bool
    requires { (at + n ≤ term_room) × (column_size ≤ length marks.now) }
    ensures { result ≡ (ltb 0 n and eqb (word_at marks.now (list_at (at + n - 1))) x) }
{
    0 < n && index(marks, LISTS + (at + n - 1)) == x
}

// A plan, and one of its variables.
#[derive(Drop)]
struct Variable<'a> {
    plan: Tables<'a>,
    x: usize,
    ghost low: { 1 ≤ x },
    ghost high: { x ≤ (planOf plan).variables },
}

impl Variable<'_> {
    // One entry of the variable's run: the list of the entry's clause gets the variable, unless it has it already.
    fn list_entry(&self, k: usize, marks: &mut [u8])
        requires { (is_locked (planOf self.now.plan) self.now.x ≡ false)
            × (word_at self.now.plan.tables.now (end_at (self.now.x - 1)) ≤ k) × (k < word_at self.now.plan.tables.now (end_at self.now.x))
            × Listing (planOf self.now.plan) self.now.x (k - word_at self.now.plan.tables.now (end_at (self.now.x - 1))) marks.old }
        ensures { Listing (planOf self.now.plan) self.now.x (k + 1 - word_at self.now.plan.tables.now (end_at (self.now.x - 1))) marks.new
            × Only (list_count_at 0) column_word_count marks.old marks.new }
    {
        let c = clause_in(word(self.plan.tables, ORDER + k));
        let at = terms_ahead(&self.plan, c);
        let n = index(marks, LIST_COUNTS + c);
        if ends_with(marks, at, n, self.x) {
            return;
        }
        write_word(marks, LISTS + (at + n), narrow(self.x));
        write_word(marks, LIST_COUNTS + c, narrow(n + 1));
    }

    // All entries of the variable's run.
    fn list_run(&self, marks: &mut [u8])
        requires { (is_locked (planOf self.now.plan) self.now.x ≡ false) × Listing (planOf self.now.plan) self.now.x 0 marks.old }
        ensures { Listing (planOf self.now.plan) (self.now.x + 1) 0 marks.new
            × Only (list_count_at 0) column_word_count marks.old marks.new }
    {
        let run = run_of(self.plan.tables, self.x);
        for k in run.start..run.end {
            self.list_entry(k, marks);
        }
    }

    // All entries of the variable's run, unless it is locked: then no list gets it. Whether it is locked is asked of the lock's word alone, since at which
    // value is not asked.
    fn list(&self, marks: &mut [u8])
        requires { Listing (planOf self.now.plan) self.now.x 0 marks.old }
        ensures { Listing (planOf self.now.plan) (self.now.x + 1) 0 marks.new
            × Only (list_count_at 0) column_word_count marks.old marks.new }
    {
        if 0 < index(self.plan.tables, LOCKS + self.x) {
            return;
        }
        self.list_run(marks);
    }
}

// Before the first variable is listed no list has one.
fn clear_counts(t: &Tables<'_>, marks: &mut [u8])
    requires { column_size ≤ length marks.old }
    ensures { Listing (planOf t.now) 1 0 marks.new
        × Only (list_count_at 0) column_word_count marks.old marks.new }
{
    let clauses = index(t.tables, 1);
    marks[4 * LIST_COUNTS..4 * (LIST_COUNTS + clauses)].fill(0);
}

// Lists all variables in turn, each in the lists of the clauses that name it.
pub fn list_clauses(t: &Tables<'_>, marks: &mut [u8])
    requires { column_size ≤ length marks.old }
    ensures { Listed (planOf t.now) marks.new
        × Only (list_count_at 0) column_word_count marks.old marks.new }
{
    clear_counts(t, marks);
    let n = index(t.tables, 0);
    for x in 1..=n {
        let variable = Variable { plan: *t, x };
        variable.list(marks);
    }
}
