// How many variables and how many constraints a plan's text has. Neither depends on the terms of a rule.
#![tactic(auto)]

ghost use Rattle.std.specs.Prelude.{◌≡◌, ℕ, ◌+◌, ◌*◌, ◌≤◌, ◌<◌, length};
ghost use Rattle.plpb.specs.Lists.{sum_by};
ghost use Rattle.words.specs.Words.{word_at, signed};
ghost use Rattle.format.specs.Layout.{rule_first_at};
ghost use Rattle.format.specs.Tables.{rule_of, clause_of, sparse};
ghost use Rattle.opb.specs.Tau.{straight, rules_lines, clause_lines, new_atoms, clauses_lines};
ghost use Rattle.clauselines.specs.Clauses.{rules_in, clauses_in};

pub mod entries;

use clauselines::new_atoms;
use entries::Entries;
use rules::entry::read_entry;
use words::{index, word};

// How many bounds rule r has.
fn bounds(tables: &[u8], r: usize) -> usize
    requires { 4 * rule_first_at r + 20 ≤ length tables.now }
    ensures { (((g : ℕ → ℕ) → result ≡ length (straight (rule_of (word_at tables.now) g r)))) × (result ≤ 2) }
{
    let e = read_entry(tables, format::RULES + 5 * r);
    usize::from(e.lower.is_some()) + usize::from(e.upper.is_some())
}

// Three loops here add up from the last to the first: what is added up is then the number of lines of a rest of the list. The library's `sum` asks beforehand
// that the whole sum fits, and answers a sum of calls, so that each loop would have two laws more than its one invariant.
// The rules of a clause and the words of a section are told by the first and how many they are: a part of the slice would shift the indices of the
// format's layout, in which the definitions speak.

// How many lines the rules of a clause with several have: of each, one for a bound that is there and one for each of (20) to (22) and both sides.
fn rules_lines(tables: &[u8], first: usize, count: usize) -> usize
    requires { (4 * rule_first_at (first + count) ≤ length tables.now) × (count ≤ 1_024) }
    ensures { (((g : ℕ → ℕ) (k : ℕ) → result ≡ length (rules_lines k (rules_in (word_at tables.now) g first count)))) × (result ≤ 7 * count) }
{
    let mut lines = 0;
    for i in (0..count).rev() {
        lines = bounds(tables, first + i) + 5 + lines;
    }
    lines
}

impl Entries<'_> {
    fn clause_lines(&self, c: usize) -> usize
        requires { c < word_at self.now.tables.now 1 }
        ensures { (((g : ℕ → ℕ) (k : ℕ) → result ≡ length (clause_lines k (clause_of (word_at self.now.tables.now) g c)))) × (result ≤ 7_169) }
    {
        let first = index(self.tables, format::CLAUSES + 2 * c);
        let count = index(self.tables, format::CLAUSE_COUNT + 2 * c);
        if count == 1 {
            return bounds(self.tables, first);
        }
        1 + rules_lines(self.tables, first, count)
    }

    // The lines of the clauses.
    pub fn clauses_lines(&self) -> usize
        ensures { (((g : ℕ → ℕ) (k : ℕ)
            → result ≡ length (clauses_lines k (clauses_in (word_at self.now.tables.now) g 0 (word_at self.now.tables.now 1)))))
            × (result ≤ 7_169 * word_at self.now.tables.now 1) }
    {
        let mut lines = 0;
        for c in (0..index(self.tables, 1)).rev() {
            lines = self.clause_lines(c) + lines;
        }
        lines
    }

    // The variables and the new ones.
    pub fn variables(&self) -> usize
        ensures { (g : ℕ → ℕ) → result ≡ word_at self.now.tables.now 0
            + sum_by new_atoms (clauses_in (word_at self.now.tables.now) g 0 (word_at self.now.tables.now 1)) }
    {
        let mut count = 0;
        for c in (0..index(self.tables, 1)).rev() {
            count = new_atoms(self.tables, c) + count;
        }
        index(self.tables, 0) + count
    }
}

// How many of n words behind an index are not 0. The library has a law of what a chain over `a..b` yields, and none for `a..=b`: with `1..=n` the count did not
// follow from it.
pub fn some_words(tables: &[u8], base: usize, n: usize) -> usize
    requires { (4 * (base + n) + 4 ≤ length tables.now) × (n < 4_294_967_296) }
    ensures { (result ≡ length (sparse (λ x. signed (word_at tables.now (base + x))) 0 n)) × (result ≤ n) }
{
    (1..n + 1).filter(|&x| word(tables, base + x) != 0).count()
}
