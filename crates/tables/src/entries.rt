// The entries of the tables, each written at the front of the part that is lent. What `objective` adds to tables that stand looks alike, but is told by its
// word in the whole table, of which its contract speaks.
ghost use Rattle.std.specs.Prelude.{◌≡◌, ◌+◌, ◌*◌, ◌/◌, ◌≤◌, ◌<◌, [], ◌∷◌, length};
ghost use Rattle.words.specs.Words.{word_bytes};
ghost use Rattle.words.specs.Writes.{front};
ghost use Rattle.format.specs.File.{term_at, terms_at, rule_at};
ghost use Rattle.format.specs.Tables.{rule_entries, term_entries};
ghost use Rattle.tables.specs.Places.{RuleHere};

use crate::fields;
use words::{narrow, write_two, write_word};

// The words of an entry come one by one: as a slice they would be an array on the stack of each function that has them.
fn put4(out: &mut [u8], a: u32, b: u32, c: u32, d: u32)
    requires { 16 ≤ length out.old }
    ensures { out.new ≡ front (word_bytes (a ∷ b ∷ c ∷ d ∷ [])) out.old }
{
    write_two(out, 0, a, b);
    write_two(out, 2, c, d);
}

// Five words, as a rule's entry has them.
pub fn put5(out: &mut [u8], a: u32, b: u32, c: u32, d: u32, e: u32)
    requires { 20 ≤ length out.old }
    ensures { out.new ≡ front (word_bytes (a ∷ b ∷ c ∷ d ∷ e ∷ [])) out.old }
{
    put4(out, a, b, c, d);
    write_word(out, 4, e);
}

// The words of an entry, one behind the other, for whoever has them as a slice. Those of this file come one by one, for which see `put4`.
pub fn put_entry(out: &mut [u8], entry: &[u32])
    requires { 4 * length entry.now ≤ length out.old }
    ensures { out.new ≡ front (word_bytes entry.now) out.old }
{
    for (i, w) in entry.iter().enumerate() {
        write_word(out, i, *w);
    }
}

// The counts of variables, clauses, rules and terms.
pub fn put_head(out: &mut [u8], variables: u32, clauses: usize, rules: usize, terms: usize)
    requires { (16 ≤ length out.old) × (clauses < 4_294_967_296) × (rules < 4_294_967_296) × (terms < 4_294_967_296) }
    ensures { out.new ≡ front (word_bytes (variables ∷ clauses ∷ rules ∷ terms ∷ [])) out.old }
{
    put4(
        out,
        variables,
        narrow(clauses),
        narrow(rules),
        narrow(terms),
    );
}

// A clause: its first rule and how many it has.
pub fn put_clause(out: &mut [u8], first: usize, rules: usize)
    requires { (8 ≤ length out.old) × (first < 4_294_967_296) × (rules < 4_294_967_296) }
    ensures { out.new ≡ front (word_bytes (first ∷ rules ∷ [])) out.old }
{
    write_two(out, 0, narrow(first), narrow(rules));
}

// A rule: its first term, how many it has, its mode and its two bounds.
pub fn put_rule(file: &[u8], at: usize, first: usize, out: &mut [u8])
    requires rule_here { RuleHere file.now at }
    requires in_bounds { (20 ≤ length out.old) × (first < 4_294_967_296) }
    ensures { out.new ≡ front (word_bytes (rule_entries first (rule_at file.now at ∷ []))) out.old }
{
    let terms = narrow(fields::terms_of(file, at));
    let mode = u32::from(file[at + 3]);
    let lower = words::read_u32(file, at + 4);
    let upper = words::read_u32(file, at + 8);
    put5(out, narrow(first), terms, mode, lower, upper);
}

// A term: its variable and its weight.
fn put_term(file: &[u8], at: usize, out: &mut [u8])
    requires { (at + 6 ≤ length file.now) × (8 ≤ length out.old) }
    ensures { out.new ≡ front (word_bytes (term_entries (term_at file.now at ∷ []))) out.old }
{
    write_two(
        out,
        0,
        words::read_u16(file, at),
        words::read_u32(file, at + 2),
    );
}

// "each rule's terms are written into the term table after those of the rules before it": out begins where those end. A term has six bytes in the file and
// eight in the table, so that its number says both places.
pub fn put_terms(terms: &[u8], out: &mut [u8])
    requires { 8 * (length terms.now / 6) ≤ length out.old }
    ensures { out.new ≡ front (word_bytes (term_entries (terms_at terms.now 0 (length terms.now / 6)))) out.old }
{
    for i in 0..terms.len() / 6 {
        put_term(terms, 6 * i, &mut out[8 * i..]);
    }
}

#[cfg(test)]
mod tests {
    use super::*;

    // The lowest byte of a word comes first, and what is behind the words stays. The bytes were worked out by hand.
    #[test]
    fn words_as_bytes(rt: HostRuntime) {
        let mut out = [9; 14];
        put_entry(&mut out, &[]);
        assert_eq!(rt; out, [9; 14]);
        put_entry(&mut out, &[1, 258, 4_294_967_295]);
        assert_eq!(rt; out, [1, 0, 0, 0, 2, 1, 0, 0, 255, 255, 255, 255, 9, 9]);
    }
}
