// The tables filled from an OPB text (document 02, T-02). The whole text is judged before a byte is written; then each section of the tables is filled by a
// loop of its own, and last the order, from the others.
// `tables` fills from a file by the same steps: what is judged and what each section is read from is another thing, so that one function for both would take
// five closures, or a trait with a law for each section.
// The buffers to write come one by one: one is read while another is written, which a struct of them would not let be proved.
#![tactic(auto)]

ghost use Rattle.std.specs.Prelude.{◌≡◌, ◌≤◌, length};
ghost use Rattle.words.specs.Words.{word_bytes};
ghost use Rattle.words.specs.Writes.{front};
ghost use Rattle.format.specs.Tables.{base_words, term_words, table_size, term_size};
ghost use Rattle.opb_lines.specs.ReadText.{plan_of_text};
ghost use Rattle.opb_read.specs.Reads.{reading, tables_read, terms_read};

use arrange::derive;
use opb_fill::Lawful;
use opb_judge::judge_text;
use opb_lines::first_line;
use tables::entries::put_head;
use verdict::Refusal;

// The table of counts, objective, clauses, rules and locks of an accepted text: all but the order of the terms.
fn fill_tables(lawful: Lawful<'_>, tables: &mut [u8])
    requires table_size_in_bounds { table_size ≤ length tables.old }
    ensures { tables.new ≡ front (word_bytes (base_words (plan_of_text lawful.entry.text.now))) tables.old }
{
    let first = first_line(lawful.text).unwrap();
    let clauses = first.constraints as usize;
    lawful.objective_section(&mut tables[format::OBJECTIVE_BYTE..format::CLAUSES_BYTE]);
    lawful.clause_section(
        clauses,
        &mut tables[format::CLAUSES_BYTE..format::RULES_BYTE],
    );
    let counted = lawful.rule_section(&mut tables[format::RULES_BYTE..format::LOCKS_BYTE]);
    // No variable is locked.
    tables[format::LOCKS_BYTE..format::ENDS_BYTE].fill(0);
    put_head(
        tables,
        first.variables,
        clauses,
        counted.rules,
        counted.terms,
    );
}

// The table of the terms of an accepted text's constraints.
fn fill_terms(lawful: Lawful<'_>, terms: &mut [u8])
    requires term_size_in_bounds { term_size ≤ length terms.old }
    ensures { terms.new ≡ front (word_bytes (term_words (plan_of_text lawful.entry.text.now))) terms.old }
{
    lawful.term_section(&mut terms[0..format::TERMS]);
}

// Fills the two tables from an OPB text, or refuses it: 21, then the text.
pub fn read_opb(text: &[u8], tables: &mut [u8], terms: &mut [u8]) -> Result<(), Refusal>
    ensures value { result ≡ reading text.now tables.old terms.old }
    ensures tables_after { tables.new ≡ tables_read text.now tables.old terms.old }
    ensures terms_after { terms.new ≡ terms_read text.now tables.old terms.old }
{
    if tables.len() < format::TABLES || terms.len() < format::TERMS {
        return Err(Refusal::TOO_SHORT);
    }
    judge_text(text)?;
    let lawful = Lawful { text };
    fill_tables(lawful, tables);
    fill_terms(lawful, terms);
    derive(tables, terms);
    Ok(())
}
