// The sections of the tables, filled from a file that was judged lawful. Each is lent whole and filled to its end: "unused entries are 0". Each walk over
// clauses or rules is a loop of its own, and a byte is compared with a tag's own number, for the reasons that the head of `fields` gives.
ghost use Rattle.std.specs.Prelude.{◌≡◌, ℕ, cond, map, eqb, ◌+◌, ◌*◌, ◌≤◌, ◌<◌, length};
ghost use Rattle.plpb.specs.Lists.{row};
ghost use Rattle.plpb.specs.Plan.{Term};
ghost use Rattle.plpb.specs.Tallies.{rules_of};
ghost use Rattle.words.specs.Words.{word_bytes};
ghost use Rattle.format.specs.Limits.{lock_term, term_count};
ghost use Rattle.format.specs.File.{term_at, lock_entry};
ghost use Rattle.format.specs.Tables.{term_words};
ghost use Rattle.tables.specs.Places.{Accepts, plan_of_file};
ghost use Rattle.tables.specs.declared.sections.Entry.{Entry};
ghost use Rattle.tables.specs.Sections.{objective_words, clause_words, rule_words, lock_words, placed, Lays};
ghost use Rattle.format.specs.Layout.{objective_size, clause_section_size, rule_section_size, lock_section_size, term_size};

use crate::{Lawful, entries, fields};
use format::Tag;

// What an entry of a field lays in a section that has a word for each variable.
#[derive(Clone, Copy)]
struct Entry {
    variable: usize,
    word: u32,
}

// The coefficient at a place.
fn coefficient(file: &[u8], at: usize) -> Entry
    requires { at + 6 ≤ length file.now }
    ensures { Lays result (term_at file.now at) }
{
    Entry {
        variable: words::read_size(file, at),
        word: words::read_u32(file, at + 2),
    }
}

// A lock's word: 1 for locked at 0, 2 for locked at 1. The word is what stands in the tables that C lends again, and it is written as soon as it is known: an
// enum would be made of the byte and turned into the word in one line.
fn lock_word(value: u8) -> u32
    ensures { result ≡ cond (eqb value 1) 2 1 }
{
    if value == 1 { 2 } else { 1 }
}

// The lock at a place.
fn lock(file: &[u8], at: usize) -> Entry
    requires { at + 3 ≤ length file.now }
    ensures { Lays result (lock_term (lock_entry file.now at)) }
{
    Entry {
        variable: words::read_size(file, at),
        word: lock_word(file[at + 2]),
    }
}

// The words of n entries, each at its variable's place.
fn put_words<F: Fn(usize) -> Entry>(n: usize, entry: F, out: &mut [u8])
    requires callable { (i : ℕ) → i < n → F.pre entry i }
    requires ranged { (i : ℕ) (r : Entry) → i < n → F.post entry i r → (1 ≤ r.variable) × (r.variable ≤ 512) }
    requires out_len { length out.old ≡ objective_size }
    ensures { (g : ℕ → Term) → ((i : ℕ) (r : Entry) → i < n → F.post entry i r → Lays r (g i)) → out.new ≡ placed (map g (row 0 n)) out.old }
{
    for i in 0..n {
        let laid = entry(i);
        words::write_u32(out, 4 * (laid.variable - 1), laid.word);
    }
}

#[derive(Clone, Copy)]
pub struct Counted {
    pub rules: usize,
    pub terms: usize,
}

impl<'a> Lawful<'a> {
    // The objective, a word for each variable.
    pub fn objective_section(self, out: &mut [u8])
        requires out_len { length out.old ≡ objective_size }
        ensures { out.new ≡ word_bytes (objective_words (plan_of_file self.entry.file.now)) }
    {
        let file = self.file;
        words::clear(out);
        put_words(
            words::read_size(file, 6) / 6,
            |i|
                requires { 8 + 6 * i + 6 ≤ length file.now }
                ensures { Lays result (term_at file.entry.now (8 + 6 * i)) }
            { coefficient(file, 8 + 6 * i) },
            out,
        );
    }

    // The locks, a word for each variable.
    pub fn lock_section(self, out: &mut [u8])
        requires out_len { length out.old ≡ lock_section_size }
        ensures { out.new ≡ word_bytes (lock_words (plan_of_file self.entry.file.now)) }
    {
        let file = self.file;
        words::clear(out);
        let at = fields::behind_objective(file);
        put_words(
            fields::locks_of(file, at),
            |i|
                requires { at + 3 + 3 * i + 3 ≤ length file.now }
                ensures { Lays result (lock_term (lock_entry file.entry.now (at + 3 + 3 * i))) }
            { lock(file, at + 3 + 3 * i) },
            out,
        );
    }

    // The clauses; it answers how many there are.
    pub fn clause_section(self, out: &mut [u8]) -> usize
        requires out_len { length out.old ≡ clause_section_size }
        ensures { (result ≡ length (plan_of_file self.entry.file.now).clauses)
            × (out.new ≡ word_bytes (clause_words (plan_of_file self.entry.file.now))) }
    {
        let file = self.file;
        let mut at = fields::first_clause(file);
        let mut clauses = 0;
        let mut first = 0;
        while file[at] == Tag::Clause as u8 {
            let run = fields::clause_run(file, at + 3);
            let place = 8 * clauses;
            let rules = run.rules;
            entries::put_clause(&mut out[place..], first, rules);
            first += rules;
            clauses += 1;
            at = run.next;
        }
        let end = 8 * clauses;
        words::clear(&mut out[end..]);
        clauses
    }

    // The rules; it answers how many there are, and how many terms they have.
    pub fn rule_section(self, out: &mut [u8]) -> Counted
        requires out_len { length out.old ≡ rule_section_size }
        ensures { (result.rules ≡ length (rules_of (plan_of_file self.entry.file.now))) × (result.terms ≡ term_count (plan_of_file self.entry.file.now))
            × (out.new ≡ word_bytes (rule_words (plan_of_file self.entry.file.now))) }
    {
        let file = self.file;
        let mut at = fields::first_rule(file);
        let mut rules = 0;
        let mut first = 0;
        while file[at] == Tag::Rule as u8 {
            let place = 20 * rules;
            entries::put_rule(file, at, first, &mut out[place..]);
            first += fields::terms_of(file, at);
            rules += 1;
            at = fields::next_rule(file, at);
        }
        let end = 20 * rules;
        words::clear(&mut out[end..]);
        Counted {
            rules,
            terms: first,
        }
    }

    // The terms of the rules: the term table is lent from its current end onward to the function that writes one rule's terms.
    pub fn term_section(self, terms: &mut [u8])
        requires terms_len { length terms.old ≡ term_size }
        ensures { terms.new ≡ word_bytes (term_words (plan_of_file self.entry.file.now)) }
    {
        let file = self.file;
        let mut at = fields::first_rule(file);
        let mut end = 0;
        while file[at] == Tag::Rule as u8 {
            let count = fields::terms_of(file, at);
            let behind = at + 12 + 6 * count;
            entries::put_terms(&file[at + 12..behind], &mut terms[end..]);
            end += 8 * count;
            at = fields::next_rule(file, at);
        }
        words::clear(&mut terms[end..]);
    }
}
