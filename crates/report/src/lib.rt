// What is printed once a plan is loaded: the settings and the list of numbers are judged, and the plan is searched.
// The room of `out` stands in each contract that has it, since `answers` writes the second line into the rest of it, which is a slice.
#![tactic(auto)]

ghost use Rattle.std.specs.Prelude.{◌≡◌, ◌≤◌, T, length, MatchResult};
ghost use Rattle.plpb.specs.Search.{search as searchOf};
ghost use Rattle.words.specs.Writes.{front};
ghost use Rattle.format.specs.File.{accepted};
ghost use Rattle.format.specs.Tables.{table_size, term_size, plan_of_tables, is_loaded};
ghost use Rattle.numbers.specs.Numbers.{numbers_of};
ghost use Rattle.settings.specs.Settings.{settings_refusal, settings_of};
ghost use Rattle.folder.specs.Files.{read_walk, numbers_refusal};
ghost use Rattle.lines.specs.Text.{answer_text, output_size};
ghost use Rattle.report.specs.Report.{with_settings, Turns};

use answers::write_answer;
use folder::files::{Refusal, judge_numbers, judge_walk};
use lines::refusal_line;
use search::search;
use settings::Settings;

// The search of a plan that was loaded, with settings that are lawful. Answers the length of what it writes, as each function here that writes does. The two
// tables go on to the search as the C interface lends them: it judges them anew, so that a struct of both would be taken apart at once.
fn search_plan(tables: &[u8], terms: &[u8], numbers: &[u8], s: Settings, out: &mut [u8]) -> usize
    requires { T (is_loaded tables.now terms.now) × (table_size ≤ length tables.now) × (term_size ≤ length terms.now)
        × (settings_refusal s ≡ 0) × (output_size ≤ length out.old) }
    ensures { (out.new
        ≡ front (answer_text (searchOf (settings_of s) (plan_of_tables tables.now terms.now)
        (numbers_of numbers.now))) out.old)
        × (result ≡ length (answer_text (searchOf (settings_of s) (plan_of_tables tables.now terms.now)
        (numbers_of numbers.now)))) }
{
    let mut assignment = [0u8; format::ASSIGNMENT];
    let mut work_tables = [0u8; format::TABLES];
    let mut work_terms = [0u8; format::TERMS];
    let mut work_assignment = [0u8; format::ASSIGNMENT];
    let mut work_tallies = [0u8; columns::KEPT];
    let mut work_marks = [0u8; columns::COLUMNS];
    let r = search(
        tables,
        terms,
        numbers,
        s,
        &mut assignment,
        &mut work_tables,
        &mut work_terms,
        &mut work_assignment,
        &mut work_tallies,
        &mut work_marks,
    );
    write_answer(tables, &assignment, r, out)
}

// The settings of walk.bin where neither that nor the list of numbers is turned away: the list is judged last.
fn judge_both(walk: &[u8], numbers: &[u8]) -> Result<Settings, Refusal>
    ensures { MatchResult result (λ k. (accepted k ≡ read_walk walk.now) × (numbers_refusal numbers.now ≡ 0)) (Turns walk.now numbers.now) }
{
    let settings = judge_walk(walk)?;
    judge_numbers(numbers)?;
    Ok(settings)
}

// The settings and the list of numbers, once the plan is loaded.
pub fn respond_loaded(
    tables: &[u8],
    terms: &[u8],
    walk: &[u8],
    numbers: &[u8],
    out: &mut [u8],
) -> usize
    requires { T (is_loaded tables.now terms.now) × (table_size ≤ length tables.now) × (term_size ≤ length terms.now)
        × (output_size ≤ length out.old) }
    ensures { (out.new
        ≡ front (with_settings (plan_of_tables tables.now terms.now)
        numbers.now (read_walk walk.now)) out.old)
        × (result ≡ length (with_settings (plan_of_tables tables.now terms.now) numbers.now (read_walk walk.now))) }
{
    match judge_both(walk, numbers) {
        Ok(settings) => search_plan(tables, terms, numbers, settings, out),
        Err(refusal) => {
            let told = verdict::Refusal::from(refusal);
            refusal_line(out, told.number, told.offset)
        }
    }
}
