// The rules of a clause, and whether they name a variable; and where a variable's terms stand in their order.
ghost use Rattle.std.specs.Prelude.{◌≡◌, ◌+◌, ◌*◌, ◌-◌, ◌≤◌, ◌<◌, length};
ghost use Rattle.plpb.specs.Plan.{named_in, names as clauseNames};
ghost use Rattle.words.specs.Words.{word_at};
ghost use Rattle.recount.specs.Core.{RunReadable};
ghost use Rattle.recount.specs.Plans.{rule, clause};
ghost use Rattle.format.specs.Layout.{clause_count_at, clause_first_at, end_at};

use crate::tables::Tables;
use rules::state::names;
use std::ops::Range;
use words::index;

// Where a clause's rules stand among all rules. Where an invariant speaks of the rule's number, a loop or chain goes from one end to the other, so that the
// number is its own variable; `joining` goes over the range itself and reads the number off what is left of it.
pub fn rules_of(tables: &[u8], c: usize) -> Range<usize>
    requires { RunReadable tables.now c }
    ensures { (result.start ≡ word_at tables.now (clause_first_at c))
        × (result.end ≡ word_at tables.now (clause_first_at c) + word_at tables.now (clause_count_at c)) }
{
    let first = index(tables, format::CLAUSES + 2 * c);
    first..first + index(tables, format::CLAUSE_COUNT + 2 * c)
}

// Where the run of variable x stands in the order: from the end of the run before it to its own. Loops whose invariant speaks of the place go from one end to
// the other, as those over `rules_of` do.
pub fn run_of(tables: &[u8], x: usize) -> Range<usize>
    requires { (1 ≤ x) × (4 * end_at x + 4 ≤ length tables.now) }
    ensures { (result.start ≡ word_at tables.now (end_at (x - 1))) × (result.end ≡ word_at tables.now (end_at x)) }
{
    index(tables, format::ENDS + (x - 1))..index(tables, format::ENDS + x)
}

impl Tables<'_> {
    // Whether a rule names the variable.
    pub fn rule_names(&self, r: usize, x: u32) -> bool
        requires { r < word_at self.now.tables.now 2 }
        ensures { result ≡ named_in x (rule self.now r).terms }
    {
        names(self.tables, self.terms, format::RULES + 5 * r, x)
    }

    // Whether one of a clause's rules names the variable.
    pub fn clause_names(&self, c: usize, x: u32) -> bool
        requires { c < word_at self.now.tables.now 1 }
        ensures { result ≡ clauseNames (clause self.now c) x }
    {
        let rules = rules_of(self.tables, c);
        (rules.start..rules.end).any(|r| self.rule_names(r, x))
    }
}
