// The tables filled from a plan file that was judged lawful (document 01, "The plan file").
// The whole file is judged before a byte is written; then each section of the tables is filled by a loop of its own, and last the order, from the others.
// The two tables come one by one, as the C interface lends them, and each section is lent as the part of the tables that it is: a slice whose length a clause
// says. An array type for it would have to be made of the part by a conversion that may fail, and no caller could meet that failure.
#![tactic(auto)]

ghost use Rattle.std.specs.Prelude.{◌≡◌, ◌≤◌, length};
ghost use Rattle.words.specs.Words.{word_bytes};
ghost use Rattle.words.specs.Writes.{front};
ghost use Rattle.format.specs.Tables.{base_words, term_words, table_size, term_size};
ghost use Rattle.tables.specs.Load.{loading, tables_after, terms_after};
ghost use Rattle.tables.specs.Places.{Accepts, plan_of_file};

pub mod entries;
pub mod fields;
pub mod sections;

use arrange::derive;
use verdict::Refusal;

// A file that was judged lawful.
#[derive(Clone, Copy)]
pub struct Lawful<'a> {
    pub file: &'a [u8],
    pub ghost accepts: { Accepts file.now },
}

impl<'a> Lawful<'a> {
    // The table of counts, objective, clauses, rules and locks of an accepted file: all but the order of the terms.
    fn fill_tables(self, tables: &mut [u8])
        requires table_size_in_bounds { table_size ≤ length tables.old }
        ensures { tables.new ≡ front (word_bytes (base_words (plan_of_file self.entry.file.now))) tables.old }
    {
        self.objective_section(&mut tables[format::OBJECTIVE_BYTE..format::CLAUSES_BYTE]);
        let clauses = self.clause_section(&mut tables[format::CLAUSES_BYTE..format::RULES_BYTE]);
        let counted = self.rule_section(&mut tables[format::RULES_BYTE..format::LOCKS_BYTE]);
        self.lock_section(&mut tables[format::LOCKS_BYTE..format::ENDS_BYTE]);
        let variables = words::read_u16(self.file, 3);
        entries::put_head(tables, variables, clauses, counted.rules, counted.terms);
    }

    // The table of the terms of an accepted file's rules.
    fn fill_terms(self, terms: &mut [u8])
        requires term_size_in_bounds { term_size ≤ length terms.old }
        ensures { terms.new ≡ front (word_bytes (term_words (plan_of_file self.entry.file.now))) terms.old }
    {
        self.term_section(&mut terms[0..format::TERMS]);
    }
}

// Fills the two tables from a plan file, or refuses it: "Loading: 21, then the file."
pub fn load(file: &[u8], tables: &mut [u8], terms: &mut [u8]) -> Result<(), Refusal>
    ensures value { result ≡ loading file.now tables.old terms.old }
    ensures tables_after { tables.new ≡ tables_after file.now tables.old terms.old }
    ensures terms_after { terms.new ≡ terms_after file.now tables.old terms.old }
{
    if tables.len() < format::TABLES || terms.len() < format::TERMS {
        return Err(Refusal::TOO_SHORT);
    }
    judge::judge(file)?;
    let lawful = Lawful { file };
    lawful.fill_tables(tables);
    lawful.fill_terms(terms);
    derive(tables, terms);
    Ok(())
}
