// The test of the order in tables whose base is good: one pass over its words, without memory of its own. Each run is of rising rules and of terms that name
// its variable, and the runs together are as many as the terms; so none of them lacks a term (format/proofs/GoodOrder.antt).
#![tactic(auto)]

ghost use Rattle.std.specs.Prelude.{◌≡◌, true, ◌-◌, ◌≤◌, ◌<◌};
ghost use Rattle.words.specs.Words.{word_at};
ghost use Rattle.order.specs.Order.{word_place};
ghost use Rattle.format.specs.Good.{every_from, entry_good, entries_from, run_good, order_good};
ghost use Rattle.ordered.specs.Ready.{Ready};
ghost use Rattle.ordered.specs.Stands.{rule_stands, term_stands};

use format::{CLAUSE_COUNT, CLAUSES, ENDS, ORDER, RULE_COUNT, RULES, TABLE_WORDS};
use places::{SEVERAL, clause_in, rule_in, term_in};
use words::{index, word, zeros};

const NEGATIVE: u32 = 2147483648; // the words of negative coefficients begin here

// Tables whose base has passed its test, and the terms beside them.
#[derive(Clone, Copy)]
struct Base<'a> {
    tables: &'a [u8],
    terms: &'a [u8],
    ghost ready: { Ready tables.now terms.now },
}

impl<'a> Base<'a> {
    // The clause of a word is there, the rule is one of the clause's, and the word's mark says whether the clause has more than one. Where it says no, the rule
    // is the first. Where it says yes, a rule below the first wraps around to one far behind the last.
    #[tactic(auto, using(crate::proofs::Words::clause_small))]
    fn rule_stands(self, w: u32) -> bool
        ensures { result ≡ rule_stands (word_at self.entry.tables.now) w }
    {
        let c = clause_in(w);
        if index(self.tables, 1) <= c {
            return false;
        }
        let r = rule_in(w);
        if w < SEVERAL {
            return index(self.tables, CLAUSES + 2 * c) == r
                && index(self.tables, CLAUSE_COUNT + 2 * c) == 1;
        }
        let count = index(self.tables, CLAUSE_COUNT + 2 * c);
        1 < count && r.wrapping_sub(index(self.tables, CLAUSES + 2 * c)) < count
    }

    // The term of such a word is there and names x, and its coefficient has the sign that the word says: the word's lowest bit, added where the sign stands,
    // leaves 0 there.
    #[tactic(auto, using(crate::proofs::Words::rule_small))]
    fn term_stands(self, x: u32, w: u32, r: usize) -> bool
        requires { (rule_stands (word_at self.tables.now) w ≡ true) × (r ≡ (word_place w).rule) }
        ensures { result ≡ term_stands (word_at self.entry.tables.now) (word_at self.entry.terms.now) x w }
    {
        let i = term_in(w);
        if index(self.tables, RULE_COUNT + 5 * r) <= i {
            return false;
        }
        let k = index(self.tables, RULES + 5 * r) + i;
        if word(self.terms, 2 * k) != x {
            return false;
        }
        let sign = NEGATIVE * (w % 2);
        sign.wrapping_add(word(self.terms, 2 * k + 1)) < NEGATIVE
    }

    // Whether a word is an entry of x, whatever rules stand before it; r is its rule.
    fn entry_good(self, x: u32, w: u32, r: usize) -> bool
        requires { r ≡ (word_place w).rule }
        ensures { result ≡ entry_good (word_at self.entry.tables.now) (word_at self.entry.terms.now) x 0 w }
    {
        if !self.rule_stands(w) {
            return false;
        }
        self.term_stands(x, w, r)
    }

    // The entries of x from one on and before another: their rules rise.
    #[tactic(auto, using(crate::proofs::Words::few_terms, crate::proofs::Words::rule_small))]
    fn entries_good(self, x: u32, from: usize, to: usize) -> bool
        requires { (from ≤ to) × (to ≤ word_at self.tables.now 3) }
        ensures { result ≡ entries_from (word_at self.entry.tables.now) (word_at self.entry.terms.now) x 0 from (to - from) }
    {
        let mut least = 0;
        for k in from..to {
            let w = word(self.tables, ORDER + k);
            let r = rule_in(w);
            if r < least {
                return false;
            }
            least = r + 1;
            if !self.entry_good(x, w, r) {
                return false;
            }
        }
        true
    }

    // The run of x: it begins where that of the variable before ends.
    fn run_good(self, x: usize) -> bool
        requires { (1 ≤ x) × (x ≤ 512) }
        ensures { result ≡ run_good (word_at self.entry.tables.now) (word_at self.entry.terms.now) x }
    {
        let from = index(self.tables, ENDS + (x - 1));
        let to = index(self.tables, ENDS + x);
        if to < from {
            return false;
        }
        if index(self.tables, 3) < to {
            return false;
        }
        self.entries_good(words::narrow(x), from, to)
    }

    // The runs of all variables. The library has a law of what a chain over `a..b` yields, and none for `a..=b`.
    fn runs_good(self, variables: usize) -> bool
        requires { variables ≤ 512 }
        ensures { result ≡ every_from (run_good (word_at self.entry.tables.now) (word_at self.entry.terms.now)) 1 variables }
    {
        (1..variables + 1).all(|x| self.run_good(x))
    }
}

// The order: the first run begins at 0, the last ends where the terms do; unused entries 0.
#[tactic(auto, using(crate::proofs::Words::few_variables, crate::proofs::Words::few_terms))]
pub fn order_good(tables: &[u8], terms: &[u8]) -> bool
    requires { Ready tables.now terms.now }
    ensures { result ≡ order_good (word_at tables.now) (word_at terms.now) }
{
    let variables = index(tables, 0);
    let total = index(tables, 3);
    if word(tables, ENDS) != 0 {
        return false;
    }
    if !(Base { tables, terms }).runs_good(variables) {
        return false;
    }
    index(tables, ENDS + variables) == total
        && zeros(tables, ENDS + (variables + 1), ORDER)
        && zeros(tables, ORDER + total, TABLE_WORDS)
}
