// The added last clause O ≤ m, written behind the plan's own clauses, rules and terms: the tables have room for one more.
// The buffers to write come one by one, each with its size in the contract: one is read while another is written, which a struct of them would not let be
// proved. What `tables::entries` writes begins where its slice does and comes from the bytes of a file; here words go to their index in tables that are in use,
// so that the two share no more than how the library writes a word.
ghost use Rattle.std.specs.Prelude.{◌≡◌, [], ◌∷◌, ◌++◌, ◌+◌, ◌*◌, ◌≤◌, ◌<◌, nat_abs, length, drop};
ghost use Rattle.plpb.specs.Search.{tightened};
ghost use Rattle.words.specs.Words.{word_at, word_bytes, unsigned};
ghost use Rattle.words.specs.Writes.{put_words};
ghost use Rattle.format.specs.Limits.{max_bound, max_variables};
ghost use Rattle.format.specs.Tables.{term_entries, objective_of, plan_of_tables, table_words, term_words, table_size, term_size};
ghost use Rattle.objective.specs.Added.{terms_above, added_entries, rebound, Boundable};
ghost use Rattle.format.specs.Layout.{clause_first_at, clause_room, clauses_byte, rule_first_at, rule_room, term_room};

use arrange::derive;
use format::Mode;
use words::{narrow, write_two, write_word};

// The word of a bound.
fn bound_word(m: i64) -> u32
    requires { nat_abs m ≤ max_bound }
    ensures { result ≡ unsigned m }
{
    words::to_unsigned(m as i32)
}

// Writes variable v + 1's term of the objective, if it has one, as term `at`; answers where the next goes.
fn add_term(tables: &[u8], terms: &mut [u8], v: usize, at: usize) -> usize
    requires { (v < 512) × (4 * (4 + v) + 4 ≤ length tables.now) × (8 * at + 8 ≤ length terms.old) }
    ensures { (terms.new ≡ put_words (2 * at) (term_entries (terms_above tables.now v 1)) terms.old)
        × (result ≡ at + length (terms_above tables.now v 1)) }
{
    let weight = words::word(tables, 4 + v);
    if weight == 0 {
        return at;
    }
    write_two(terms, 2 * at, narrow(v + 1), weight);
    at + 1
}

// Writes the objective's terms from term `first` on; answers where the next goes.
fn add_terms(tables: &[u8], terms: &mut [u8], first: usize) -> usize
    requires { (word_at tables.now 0 ≤ max_variables) × (clauses_byte ≤ length tables.now)
        × (8 * (first + word_at tables.now 0) ≤ length terms.old) }
    ensures { (terms.new ≡ put_words (2 * first) (term_entries (objective_of (word_at tables.now))) terms.old)
        × (result ≡ first + length (objective_of (word_at tables.now))) }
{
    let n = words::index(tables, 0);
    let mut at = first;
    for v in 0..n {
        at = add_term(tables, terms, v, at);
    }
    at
}

// A clause of one rule.
fn add_clause(tables: &mut [u8], clauses: usize, rules: usize)
    requires { (table_size ≤ length tables.old) × (clauses ≤ 512) × (rules ≤ 1024) }
    ensures { tables.new ≡ put_words (clause_first_at clauses) (rules ∷ 1 ∷ []) tables.old }
{
    write_two(tables, format::CLAUSES + 2 * clauses, narrow(rules), 1);
}

// A rule with an upper bound alone, and 0 for the lower.
fn add_rule(tables: &mut [u8], rules: usize, first: usize, count: usize, bound: u32)
    requires { (table_size ≤ length tables.old) × (rules ≤ 1024) × (first ≤ 6000) × (count ≤ 512) }
    ensures { tables.new ≡ put_words (rule_first_at rules) (first ∷ count ∷ 2 ∷ 0 ∷ bound ∷ []) tables.old }
{
    write_two(
        tables,
        format::RULES + 5 * rules,
        narrow(first),
        narrow(count),
    );
    write_two(tables, format::RULE_MODE + 5 * rules, Mode::Upper as u32, 0);
    write_word(tables, format::RULE_UPPER + 5 * rules, bound);
}

// The counts of clauses, rules and terms.
fn write_counts(tables: &mut [u8], clauses: usize, rules: usize, terms: usize)
    requires { (table_size ≤ length tables.old) × (clauses ≤ clause_room) × (rules ≤ rule_room) × (terms ≤ term_room) }
    ensures { tables.new ≡ put_words 1 (clauses ∷ rules ∷ terms ∷ []) tables.old }
{
    write_two(tables, 1, narrow(clauses), narrow(rules));
    write_word(tables, 3, narrow(terms));
}

// The clause's and the rule's entries and the counts, with `count` terms written behind those that there were.
fn add_entries(tables: &mut [u8], count: usize, bound: u32)
    requires { (table_size ≤ length tables.old) × (word_at tables.old 1 ≤ 512) × (word_at tables.old 2 ≤ 1024)
        × (word_at tables.old 3 ≤ 6000) × (count ≤ 512) }
    ensures { tables.new ≡ added_entries count bound tables.old }
{
    let clauses = words::index(tables, 1);
    let rules = words::index(tables, 2);
    let first = words::index(tables, 3);
    add_clause(tables, clauses, rules);
    add_rule(tables, rules, first, count, bound);
    write_counts(tables, clauses + 1, rules + 1, first + count);
}

// Adds the last clause O ≤ m to the tables of a lawful plan, and its terms to the order. A search adds it only where the objective has a term: without one
// every cost is l(O).
pub fn add_bound(tables: &mut [u8], terms: &mut [u8], m: i64)
    requires { Boundable tables.old terms.old × (nat_abs m ≤ max_bound) }
    ensures tables_after { tables.new
        ≡ word_bytes (table_words (tightened (plan_of_tables tables.old terms.old) m)) ++ drop table_size tables.old }
    ensures terms_after { terms.new
        ≡ word_bytes (term_words (tightened (plan_of_tables tables.old terms.old) m)) ++ drop term_size terms.old }
{
    let first = words::index(tables, 3);
    let end = add_terms(tables, terms, first);
    add_entries(tables, end - first, bound_word(m));
    derive(tables, terms);
}

// Another bound in the clause that was added.
pub fn set_bound(tables: &mut [u8], m: i64)
    requires { (table_size ≤ length tables.old) × (word_at tables.old 2 ≤ rule_room) × (nat_abs m ≤ max_bound) }
    ensures { tables.new ≡ rebound m tables.old }
{
    let rules = words::index(tables, 2);
    write_word(tables, format::LAST_UPPER + 5 * rules, bound_word(m));
}
