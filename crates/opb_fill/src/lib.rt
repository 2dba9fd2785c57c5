// The sections of the tables, filled from an OPB text that was judged lawful. Each is lent whole and filled to its end: "unused entries are 0".
#![tactic(auto)]

ghost use Rattle.std.specs.Prelude.{◌≡◌, true, cond, [], ◌∷◌, ◌+◌, ◌*◌, ◌-◌, ◌≤◌, ◌<◌, length};
ghost use Rattle.plpb.specs.Tallies.{rules_of};
ghost use Rattle.words.specs.Words.{word_bytes, unsigned, bytes_of};
ghost use Rattle.words.specs.Writes.{front, put};
ghost use Rattle.format.specs.Limits.{term_count};
ghost use Rattle.format.specs.Layout.{clause_section_size, rule_section_size, term_size, objective_size};
ghost use Rattle.format.specs.Tables.{rule_entries, term_entries, term_words};
ghost use Rattle.tables.specs.Sections.{objective_words, clause_words, rule_words, placed, in_range};
ghost use Rattle.statements.specs.Grammar.{sum_at, rule_at, with_sign};
ghost use Rattle.opb_lines.specs.ReadText.{plan_of_text, objective_of};
ghost use Rattle.opb_lines.specs.Lines.{next_line, lines_from};
ghost use Rattle.tokens.specs.Found.{read, Reads};
ghost use Rattle.opb_fill.specs.Fill.{of_kind, FirstFrom, Reaches, InRange, ConstraintHere};

mod lawful;

use format::Mode;
pub use lawful::Lawful;
use opb_lines::next_line;
use statements::{Kind, Signed, kind_at, objective_sum, relation_at, sum_at, term_at};
use tables::entries::{put_clause, put5};
use tables::sections::Counted;
use tokens::Text;
use words::{clear, narrow, write_two, write_u32};

// The first line of a kind from a line on, or the end of the text.
fn first_from(kind: Kind, t: Text<'_>) -> Text<'_>
    ensures { Reads (FirstFrom (of_kind kind)) t.entry result }
{
    let mut text = t;
    while text.at < text.bytes.len() {
        if kind_at(text.bytes, text.at) == kind {
            return text;
        }
        text = next_line(text);
    }
    text
}

// The first constraint behind a line.
fn constraint_behind(t: Text<'_>) -> Text<'_>
    ensures { Reaches t.entry.bytes.now (read next_line t.entry) result }
{
    first_from(Kind::Constraint, next_line(t))
}

// The word of a signed number. It is no `From`: that keeps a number, and below 0 the word is another one.
fn signed_word(number: Signed) -> u32
    ensures { result ≡ unsigned (with_sign number.negative number.size) }
{
    if number.negative {
        number.size.wrapping_neg()
    } else {
        number.size
    }
}

// A constraint's rule: `>=` has a lower bound, "`=` in mode 3"; it answers how many terms it has.
fn put_rule(t: Text<'_>, first: usize, out: &mut [u8]) -> usize
    requires { ConstraintHere t.bytes.now t.at × (20 ≤ length out.old) × (first < 4_294_967_296) }
    ensures { (result ≡ length (read sum_at t.entry))
        × (out.new ≡ front (word_bytes (rule_entries first (read rule_at t.entry ∷ []))) out.old) }
{
    // The text was judged before, so that what `sum_at` judges by the way is not asked, and any number of variables serves.
    let sum = sum_at(t, 0).unwrap();
    let relation = relation_at(sum.rest).unwrap();
    let bound = signed_word(relation.bound);
    let (mode, upper) = if relation.exact {
        (Mode::Both, bound)
    } else {
        (Mode::Lower, 0)
    };
    put5(
        out,
        narrow(first),
        narrow(sum.count),
        mode as u32,
        bound,
        upper,
    );
    sum.count
}

fn put_term(out: &mut [u8], variable: u32, weight: u32)
    requires { 8 ≤ length out.old }
    ensures { out.new ≡ front (word_bytes (variable ∷ weight ∷ [])) out.old }
{
    write_two(out, 0, variable, weight);
}

// The terms of a sum, one behind the other; it answers how many bytes they take.
fn put_sum(t: Text<'_>, out: &mut [u8]) -> usize
    requires { InRange (read sum_at t) × (8 * length (read sum_at t) ≤ length out.old) × (length out.old ≤ term_size) }
    ensures { (result ≡ 8 * length (read sum_at t.entry)) × (out.new ≡ front (word_bytes (term_entries (read sum_at t.entry))) out.old) }
{
    let mut text = t;
    let mut end = 0;
    while let Some(term) = term_at(text) {
        put_term(&mut out[end..], term.variable, signed_word(term.weight));
        text = term.rest;
        end += 8;
    }
    end
}

fn put_coefficient(out: &mut [u8], variable: u32, weight: u32)
    requires { (1 ≤ variable) × (variable ≤ 512) × (length out.old ≡ objective_size) }
    ensures { out.new ≡ put (4 * (variable - 1)) (bytes_of 4 weight) out.old }
{
    let place = 4 * ((variable as usize) - 1);
    write_u32(out, place, weight);
}

// The terms of a sum, each at its variable's place. The loop is that of `put_sum`, and what it carries is not: as one loop over a closure, what the closure has
// written so far would have to be said at each call. The length stands in each contract that has the section, since a section is a part of the lent table: an
// array would have to be made of it first.
fn put_coefficients(t: Text<'_>, out: &mut [u8])
    requires { InRange (read sum_at t) × (in_range (read sum_at t) ≡ true) × (length out.old ≡ objective_size) }
    ensures { out.new ≡ placed (read sum_at t.entry) out.old }
{
    let mut text = t;
    while let Some(term) = term_at(text) {
        put_coefficient(out, term.variable, signed_word(term.weight));
        text = term.rest;
    }
}

// Where the objective's sum begins, or the end of the text.
fn objective_begins(s: &[u8]) -> Text<'_>
    ensures { read sum_at result ≡ objective_of s.now (lines_from s.now (next_line s.now 0)) }
{
    let text = first_from(Kind::Objective, next_line(Text::from(s)));
    if text.at < text.bytes.len() {
        objective_sum(text)
    } else {
        text
    }
}

// The sections, as `tables` has them of a file. A file tells where each of its fields lies, while of a text each constraint is read on from the one before it:
// only what is written is shared, the entries and the zeros behind them, and not the loops.
impl<'a> Lawful<'a> {
    // The objective, a word for each variable.
    pub fn objective_section(self, out: &mut [u8])
        requires out_len { length out.old ≡ objective_size }
        ensures { out.new ≡ word_bytes (objective_words (plan_of_text self.entry.text.now)) }
    {
        clear(out);
        put_coefficients(objective_begins(self.text), out);
    }

    // The clauses, each of one rule.
    #[tactic(auto, using(crate::proofs::Filled::clause_space, crate::proofs::Filled::clause_all_space))]
    pub fn clause_section(self, clauses: usize, out: &mut [u8])
        requires clauses_value { (clauses ≡ length (plan_of_text self.text.now).clauses) × (length out.old ≡ clause_section_size) }
        ensures { out.new ≡ word_bytes (clause_words (plan_of_text self.entry.text.now)) }
    {
        for c in 0..clauses {
            let place = 8 * c;
            put_clause(&mut out[place..], c, 1);
        }
        let end = 8 * clauses;
        clear(&mut out[end..]);
    }

    // The rules; it answers how many there are, and how many terms they have.
    pub fn rule_section(self, out: &mut [u8]) -> Counted
        requires out_len { length out.old ≡ rule_section_size }
        ensures { (result.rules ≡ length (rules_of (plan_of_text self.entry.text.now))) × (result.terms ≡ term_count (plan_of_text self.entry.text.now))
            × (out.new ≡ word_bytes (rule_words (plan_of_text self.entry.text.now))) }
    {
        let mut text = constraint_behind(Text::from(self.text));
        let mut rules = 0;
        let mut first = 0;
        while text.at < text.bytes.len() {
            let place = 20 * rules;
            first += put_rule(text, first, &mut out[place..]);
            rules += 1;
            text = constraint_behind(text);
        }
        let end = 20 * rules;
        clear(&mut out[end..]);
        Counted {
            rules,
            terms: first,
        }
    }

    // The terms of the rules: the term table is lent from its current end onward to the function that writes one rule's terms.
    // The two loops over the constraints have their form in common, and what each carries is its own, as with `put_sum`.
    pub fn term_section(self, terms: &mut [u8])
        requires terms_len { length terms.old ≡ term_size }
        ensures { terms.new ≡ word_bytes (term_words (plan_of_text self.entry.text.now)) }
    {
        let mut text = constraint_behind(Text::from(self.text));
        let mut end = 0;
        while text.at < text.bytes.len() {
            end += put_sum(text, &mut terms[end..]);
            text = constraint_behind(text);
        }
        clear(&mut terms[end..]);
    }
}
