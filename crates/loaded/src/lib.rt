// The test of tables: refusal 22 is for "tables that no accepted loading leaves". Each loop is one piece of the definition `good_by`, but for two that
// together tell whether the variables of each rule rise; the order has its own test (crate ordered). Good tables are the rule and are read whole in any case,
// so a loop that only compares words does not stop at the first fault: without a way out it takes 16 bytes at a time. For that the tests of a word are joined
// by `&`, where those of crate bodies, which look alike, have a way out at the first fault of a file; and a mode is any word here, not a byte.
#![tactic(auto)]

ghost use Rattle.std.specs.Prelude.{◌≡◌, ℕ, Bool, true, cond, ◌+◌, ◌*◌, ◌-◌, ◌≤◌, ◌<◌, leb, ltb, eqb, nat_abs, length};
ghost use Rattle.plpb.specs.Lists.{◌and◌};
ghost use Rattle.words.specs.Words.{word_at, signed};
ghost use Rattle.format.specs.Limits.{max_variables, max_clauses, max_rules, max_terms, max_weight, weight_lawful};
ghost use Rattle.format.specs.Layout.{table_size, term_size, rule_first_at, rule_count_at};
ghost use Rattle.format.specs.File.{bounds_lawful};
ghost use Rattle.format.specs.Tables.{is_loaded};
ghost use Rattle.format.specs.Good.{every_from, zeros_from, chain_from, term_good as termGood};
ghost use Rattle.loaded.specs.Falls.{falls, starts, bounds_of};
ghost use Rattle.format.specs.Good.{objective_good, locks_good, clauses_good, rules_good, rule_good, base_good};

use format::{
    CLAUSES, LOCKS, MAX_CLAUSES, MAX_RULES, MAX_TERMS, MAX_VARIABLES, Mode, OBJECTIVE, RULE_COUNT,
    RULE_LOWER, RULE_MODE, RULE_UPPER, RULES, RULES_END, TABLES, TERM_WORDS, TERMS,
};
use ordered::order_good;
use words::{index, magnitude, narrow, to_signed, word, zeros};

// The size of the signed number that a word stands for.
fn size(w: u32) -> u32
    ensures { result ≡ nat_abs (signed w) }
{
    magnitude(to_signed(w))
}

// "a coefficient 0 or outside ±1,000,000" is refused.
fn weight_good(w: u32) -> bool
    ensures { result ≡ weight_lawful (signed w) }
{
    let m = size(w);
    (0 < m) & (m <= 1000000)
}

// An entry of a chain: it begins where the one before it ended, and of the places up to an end it takes one at least.
fn link_good(first: usize, count: usize, at: usize, end: usize) -> bool
    requires { at ≤ end }
    ensures { result ≡ (eqb first at and leb 1 count and leb count (end - at)) }
{
    (first == at) & (1 <= count) & (count <= end - at)
}

// A term by itself: "a term's variable outside 1 to n" is refused, and so is a weight that is not lawful.
fn term_good(variable: u32, weight: u32, variables: u32) -> bool
    ensures { result ≡ (ltb 0 variable and leb variable variables and weight_lawful (signed weight)) }
{
    (0 < variable) & (variable <= variables) & weight_good(weight)
}

// 1 where a variable is "not above the one before".
fn fall(above: u32, variable: u32) -> u32
    ensures { (result ≡ cond (leb variable above) 1 0) × (result ≤ 1) }
{
    u32::from(variable <= above)
}

// "mode outside 1 to 3, a bound outside ±1,000,000,000, an absent bound not 0" is refused.
fn bounds_good(mode: u32, lower: u32, upper: u32) -> bool
    ensures { result ≡ bounds_lawful mode (signed lower) (signed upper) }
{
    let l = size(lower);
    let u = size(upper);
    (Mode::Lower as u32 <= mode)
        & (mode <= Mode::Both as u32)
        & (l <= 1000000000)
        & (u <= 1000000000)
        & ((mode != Mode::Upper as u32) | (l == 0))
        & ((mode != Mode::Lower as u32) | (u == 0))
}

// The counts within the limits.
fn counts_good(variables: usize, clauses: usize, rules: usize, total: usize) -> bool
    ensures { result ≡ (leb 1 variables and leb variables max_variables and leb clauses max_clauses and leb rules max_rules and leb total max_terms) }
{
    (1 <= variables)
        & (variables <= MAX_VARIABLES)
        & (clauses <= MAX_CLAUSES)
        & (rules <= MAX_RULES)
        & (total <= MAX_TERMS)
}

// Tables of full size whose counts are within the limits.
#[derive(Clone, Copy)]
struct Counted<'a> {
    tables: &'a [u8],
    terms: &'a [u8],
    variables: usize,
    clauses: usize,
    rules: usize,
    total: usize,
    ghost long: { (table_size ≤ length tables.now) × (term_size ≤ length terms.now) },
    ghost counts: { (variables ≡ word_at tables.now 0) × (clauses ≡ word_at tables.now 1)
        × (rules ≡ word_at tables.now 2) × (total ≡ word_at tables.now 3) },
    ghost limits: { (variables ≤ max_variables) × (clauses ≤ max_clauses) × (rules ≤ max_rules) × (total ≤ max_terms) },
}

impl<'a> Counted<'a> {
    // A section that has a word for each variable, that of variable x at `before + x`: each word passes a test, and beyond the last they are 0. The range of
    // the loop leaves out its end: with an inclusive one, which keeps beside the number whether the last has come, it would no longer take 16 bytes at a time.
    fn section_good<F: Fn(u32) -> bool>(self, before: usize, test: F) -> bool
        requires inside { 4 * (before + 1 + max_variables) ≤ length self.tables.now }
        requires callable { F.IsAlwaysCallable test }
        ensures { (good : ℕ → Bool) → ((w : ℕ) (r : Bool) → F.post test w r → r ≡ good w) → result
            ≡ (every_from (λ x. good (word_at self.entry.tables.now (before + x))) 1 self.entry.variables
            and zeros_from (word_at self.entry.tables.now) (before + 1 + self.entry.variables) (512 - self.entry.variables)) }
    {
        let mut all = true;
        for x in 1..self.variables + 1 {
            all &= test(word(self.tables, before + x));
        }
        all & zeros(
            self.tables,
            before + 1 + self.variables,
            before + 1 + MAX_VARIABLES,
        )
    }

    // The objective: 0 or a lawful coefficient for each variable, 0 beyond the last.
    fn objective_good(self) -> bool
        ensures { result ≡ objective_good (word_at self.entry.tables.now) }
    {
        self.section_good(
            OBJECTIVE,
            |w|
                ensures { result ≡ leb (nat_abs (signed w)) max_weight }
            { size(w) <= 1000000 },
        )
    }

    // A chain of entries, of which the first stands at word FIRST and each has WIDTH words. An entry's first two words say where its places begin, which is
    // where those of the entry before end, and how many they are; those of the last end at `end`.
    fn chain<const FIRST: usize, const WIDTH: usize>(self, entries: usize, end: usize) -> bool
        requires inside { 4 * (FIRST + WIDTH * entries + 2) ≤ length self.tables.now }
        ensures { result
            ≡ chain_from (λ i. word_at self.entry.tables.now (FIRST + WIDTH * i)) (λ i. word_at self.entry.tables.now (FIRST + 1 + WIDTH * i))
            end 0 0 entries }
    {
        let mut at = 0;
        for i in 0..entries {
            let count = index(self.tables, FIRST + 1 + WIDTH * i);
            if !link_good(index(self.tables, FIRST + WIDTH * i), count, at, end) {
                return false;
            }
            at += count;
        }
        at == end
    }

    // The clauses share out the rules in order, and 0 stands beyond the last.
    fn clauses_good(self) -> bool
        ensures { result ≡ clauses_good (word_at self.entry.tables.now) }
    {
        self.chain::<CLAUSES, 2>(self.clauses, self.rules)
            & zeros(self.tables, CLAUSES + 2 * self.clauses, RULES)
    }

    // Each term by itself.
    fn terms_good(self) -> bool
        ensures { result ≡ every_from (termGood (word_at self.entry.terms.now) self.entry.variables 0) 0 self.entry.total }
    {
        let variables = narrow(self.variables);
        let mut all = true;
        for i in 0..self.total {
            all &= term_good(
                word(self.terms, 2 * i),
                word(self.terms, 2 * i + 1),
                variables,
            );
        }
        all
    }

    // How many terms name a variable that is not above that of the term before. One pass over all of them takes 16 bytes at a time, where most rules are too
    // short for that.
    fn falls(self) -> u32
        ensures { result ≡ falls (word_at self.entry.terms.now) 0 0 self.entry.total }
    {
        let mut above = 0;
        let mut count = 0;
        for i in 0..self.total {
            let variable = word(self.terms, 2 * i);
            count += fall(above, variable);
            above = variable;
        }
        count
    }

    // How many of those terms are the first of a rule. Where all are, the variables of each rule rise.
    fn starts(self) -> u32
        requires chained { chain_from (λ r. word_at self.tables.now (rule_first_at r)) (λ r. word_at self.tables.now (rule_count_at r))
            self.total 0 0 self.rules ≡ true }
        ensures { result ≡ starts (word_at self.entry.terms.now) (λ r. word_at self.entry.tables.now (rule_count_at r)) 0 0 0 self.entry.rules }
    {
        let mut at = 0;
        let mut above = 0;
        let mut count = 0;
        for r in 0..self.rules {
            count += fall(above, word(self.terms, 2 * at));
            at += index(self.tables, RULE_COUNT + 5 * r);
            above = word(self.terms, 2 * (at - 1));
        }
        count
    }

    // A rule's mode and bounds.
    fn bounds_at(self, r: usize) -> bool
        requires in_bounds { r < self.rules }
        ensures { result ≡ bounds_of (word_at self.entry.tables.now) r }
    {
        let mode = word(self.tables, RULE_MODE + 5 * r);
        let lower = word(self.tables, RULE_LOWER + 5 * r);
        let upper = word(self.tables, RULE_UPPER + 5 * r);
        bounds_good(mode, lower, upper)
    }

    // The rules share out the terms in order, each is lawful, and 0 stands beyond the last. Their terms are tested all together: each by itself, and then
    // whether the variables fall where a rule begins and nowhere else.
    fn rules_good(self) -> bool
        ensures { result
            ≡ (rules_good (word_at self.entry.tables.now)
            and every_from (rule_good (word_at self.entry.tables.now) (word_at self.entry.terms.now)) 0 self.entry.rules) }
    {
        if !self.chain::<RULES, 5>(self.rules, self.total) {
            return false;
        }
        (0..self.rules).all(|r| self.bounds_at(r))
            & (self.terms_good() & (self.falls() == self.starts()))
            & zeros(self.tables, RULES + 5 * self.rules, RULES_END)
    }

    // The locks: 0, 1 or 2 for each variable, 0 beyond the last.
    fn locks_good(self) -> bool
        ensures { result ≡ locks_good (word_at self.entry.tables.now) }
    {
        self.section_good(
            LOCKS,
            |w|
                ensures { result ≡ leb w 2 }
            { w <= 2 },
        )
    }
}

// The base of tables of full size, and the terms. The two come as they are lent, here and in `order_good`: what a struct of them holds is known only once the
// tests before have passed.
fn base_good(tables: &[u8], terms: &[u8]) -> bool
    requires table_size_in_bounds { table_size ≤ length tables.now }
    requires term_size_in_bounds { term_size ≤ length terms.now }
    ensures { result ≡ base_good (word_at tables.now) (word_at terms.now) }
{
    let variables = index(tables, 0);
    let clauses = index(tables, 1);
    let rules = index(tables, 2);
    let total = index(tables, 3);
    if !counts_good(variables, clauses, rules, total) {
        return false;
    }
    let counted = Counted {
        tables,
        terms,
        variables,
        clauses,
        rules,
        total,
    };
    counted.objective_good()
        & counted.clauses_good()
        & counted.rules_good()
        & zeros(terms, 2 * total, TERM_WORDS)
        & counted.locks_good()
}

// Whether an accepted loading leaves these tables, for any bytes: format/proofs/IsLoaded.antt says that `is_loaded` is just that.
pub fn good(tables: &[u8], terms: &[u8]) -> bool
    ensures { result ≡ is_loaded tables.now terms.now }
{
    if tables.len() < TABLES {
        return false;
    }
    if terms.len() < TERMS {
        return false;
    }
    if !base_good(tables, terms) {
        return false;
    }
    order_good(tables, terms)
}
