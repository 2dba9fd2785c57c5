// The planner's C interface: numbers and byte slices in, numbers out. include/planner.h declares it.
// Each function promises what the function that it calls promises.
// The C interface hands over a pointer and a length for each slice and a word for each number: so they come one by one, and a refusal goes out as its number.
#![tactic(auto)]

ghost use Rattle.std.specs.Prelude.{◌≡◌, [], ◌∷◌, ◌/◌, length};
ghost use Rattle.counting.specs.Count.{count_words, marked_words};
ghost use Rattle.tallies.specs.Calls.{lent, open_refusal, open_tallies, call_refusal, counts_break, counts_make};
ghost use Rattle.tallies.specs.Calls.{flip_refusal, flip_rules, flip_assignment, flip_tallies};
ghost use Rattle.search.specs.Calls.{Searches, HandsOut};
ghost use Rattle.lending.specs.Lent.{lent_all};
ghost use Rattle.reports.specs.Calls.{Reports};
ghost use Rattle.trials.specs.Trials.{trial};
ghost use Rattle.squeeze.specs.Calls.{Answers, outcome};
ghost use Rattle.division.specs.Split.{refusal_after, parts_after};
ghost use Rattle.festival.specs.Festival.{given, buffers, raced, room_refusal};
ghost use Rattle.festival.specs.Own.{works};
ghost use Rattle.opb_read.specs.Reads.{reading, tables_read, terms_read};
ghost use Rattle.races.specs.Races.{stakes_in, parts_put};
ghost use Rattle.writer.specs.Calls.{write_refusal, write_length, text_after};
ghost use Rattle.tables.specs.Load.{refusal_of, offset_of, loading, tables_after, terms_after};

use answers::Answer as Searched;
use calls::counts::{Counted, counts};
use calls::flip::{Flipped, flip};
use calls::open::open;
use festival::plan_races;
use figures::Figures;
use opb_read::read_opb;
use reports::report;
use search::search;
use settings::Settings;
use squeeze::{Squeezed, squeeze};
use tables::load;
use trials::Trial;
use verdict::Loaded;
use writer::{Written, write_opb};
use xorwow::Xorwow;

#[unsafe(no_mangle)]
pub extern "C" fn planner_load(file: &[u8], tables: &mut [u8], terms: &mut [u8]) -> Loaded
    ensures refusal_value { (result.refusal ≡ refusal_of (loading file.now tables.old terms.old))
        × (result.offset ≡ offset_of (loading file.now tables.old terms.old)) }
    ensures tables_after { tables.new ≡ tables_after file.now tables.old terms.old }
    ensures terms_after { terms.new ≡ terms_after file.now tables.old terms.old }
{
    Loaded::from(load(file, tables, terms))
}

#[unsafe(no_mangle)]
pub extern "C" fn planner_read_opb(text: &[u8], tables: &mut [u8], terms: &mut [u8]) -> Loaded
    ensures refusal_value { (result.refusal ≡ refusal_of (reading text.now tables.old terms.old))
        × (result.offset ≡ offset_of (reading text.now tables.old terms.old)) }
    ensures tables_after { tables.new ≡ tables_read text.now tables.old terms.old }
    ensures terms_after { terms.new ≡ terms_read text.now tables.old terms.old }
{
    Loaded::from(read_opb(text, tables, terms))
}

#[unsafe(no_mangle)]
pub extern "C" fn planner_open(
    tables: &[u8],
    terms: &[u8],
    assignment: &[u8],
    tallies: &mut [u8],
) -> u32
    ensures value { result ≡ open_refusal (lent tables.now terms.now assignment.now tallies.old) }
    ensures tallies_after { tallies.new
        ≡ open_tallies (lent tables.now terms.now assignment.now tallies.old) }
{
    open(tables, terms, assignment, tallies)
}

#[unsafe(no_mangle)]
pub extern "C" fn planner_flip(
    tables: &[u8],
    terms: &[u8],
    assignment: &mut [u8],
    tallies: &mut [u8],
    variable: u32,
) -> Flipped
    ensures refusal_value { result.refusal
        ≡ flip_refusal (lent tables.now terms.now assignment.old tallies.old) variable }
    ensures rules_value { result.rules ≡ flip_rules (lent tables.now terms.now assignment.old tallies.old) variable }
    ensures assignment_after { assignment.new
        ≡ flip_assignment (lent tables.now terms.now assignment.old tallies.old) variable }
    ensures tallies_after { tallies.new
        ≡ flip_tallies (lent tables.now terms.now assignment.old tallies.old) variable }
{
    flip(tables, terms, assignment, tallies, variable)
}

#[unsafe(no_mangle)]
pub extern "C" fn planner_counts(
    tables: &[u8],
    terms: &[u8],
    assignment: &[u8],
    tallies: &[u8],
    variable: u32,
) -> Counted
    ensures refusal_value { result.refusal
        ≡ call_refusal (lent tables.now terms.now assignment.now tallies.now) variable }
    ensures breaks_value { marked_words result.breaks
        ≡ count_words (counts_break (lent tables.now terms.now assignment.now tallies.now) variable) }
    ensures makes_value { marked_words result.makes
        ≡ count_words (counts_make (lent tables.now terms.now assignment.now tallies.now) variable) }
{
    counts(tables, terms, assignment, tallies, variable)
}

// What is handed out satisfies every clause and has the cost stated, whatever else is read of the contract.
#[unsafe(no_mangle)]
pub extern "C" fn planner_search(
    tables: &[u8],
    terms: &[u8],
    numbers: &[u8],
    noise: u32,
    tries: u32,
    flips: u32,
    mode: u32,
    heuristic: u32,
    chance: u32,
    assignment: &mut [u8],
    work_tables: &mut [u8],
    work_terms: &mut [u8],
    work_assignment: &mut [u8],
    work_tallies: &mut [u8],
    work_marks: &mut [u8],
) -> Searched
    ensures searches { Searches
        (lent_all tables.now terms.now numbers.now assignment.old work_tables.old
        work_terms.old work_assignment.old work_tallies.old work_marks.old)
        (record { noise = noise; tries = tries; flips = flips; mode = mode; heuristic = heuristic; chance = chance }) result
        (lent_all tables.now terms.now numbers.now assignment.new work_tables.new
        work_terms.new work_assignment.new work_tallies.new work_marks.new) }
    ensures hands_out { HandsOut
        (lent_all tables.now terms.now numbers.now assignment.old work_tables.old
        work_terms.old work_assignment.old work_tallies.old work_marks.old) result
        assignment.new }
{
    search(
        tables,
        terms,
        numbers,
        Settings {
            noise,
            tries,
            flips,
            mode,
            heuristic,
            chance,
        },
        assignment,
        work_tables,
        work_terms,
        work_assignment,
        work_tallies,
        work_marks,
    )
}

// The figures of many runs, each a search of its own.
#[unsafe(no_mangle)]
pub extern "C" fn planner_runs(
    tables: &[u8],
    terms: &[u8],
    x: u32,
    y: u32,
    z: u32,
    w: u32,
    v: u32,
    counter: u32,
    runs: u32,
    count: u32,
    noise: u32,
    tries: u32,
    flips: u32,
    mode: u32,
    heuristic: u32,
    chance: u32,
    numbers: &mut [u8],
    assignment: &mut [u8],
    work_tables: &mut [u8],
    work_terms: &mut [u8],
    work_assignment: &mut [u8],
    work_tallies: &mut [u8],
    work_marks: &mut [u8],
) -> Figures
    ensures { Reports
        (lent_all tables.now terms.now numbers.old assignment.old work_tables.old
        work_terms.old work_assignment.old work_tallies.old work_marks.old)
        (trial (record { noise = noise; tries = tries; flips = flips; mode = mode; heuristic = heuristic; chance = chance })
        (record { x = x; y = y; z = z; w = w; v = v; counter = counter }) runs count) result
        (lent_all tables.now terms.now numbers.new assignment.new work_tables.new
        work_terms.new work_assignment.new work_tallies.new work_marks.new) }
{
    report(
        tables,
        terms,
        Trial {
            settings: Settings {
                noise,
                tries,
                flips,
                mode,
                heuristic,
                chance,
            },
            state: Xorwow {
                x,
                y,
                z,
                w,
                v,
                counter,
            },
            runs,
            count,
        },
        numbers,
        assignment,
        work_tables,
        work_terms,
        work_assignment,
        work_tallies,
        work_marks,
    )
}

#[unsafe(no_mangle)]
pub extern "C" fn planner_squeeze(file: &mut [u8], old: &mut [u8]) -> Squeezed
    ensures answers { Answers result (outcome file.old old.old) }
    ensures file_after { file.new ≡ (outcome file.old old.old).file }
    ensures after { old.new ≡ (outcome file.old old.old).old }
{
    squeeze(file, old)
}

// A festival of up to 8 races from one list of numbers. The races stand in the list as records of three numbers: stake, first place and length.
#[unsafe(no_mangle)]
pub extern "C" fn planner_races<'a>(
    races: &mut [usize],
    numbers: &[u8],
    settings: &[u8],
    t1: &'a [u8],
    e1: &'a [u8],
    t2: &'a [u8],
    e2: &'a [u8],
    t3: &'a [u8],
    e3: &'a [u8],
    t4: &'a [u8],
    e4: &'a [u8],
    t5: &'a [u8],
    e5: &'a [u8],
    t6: &'a [u8],
    e6: &'a [u8],
    t7: &'a [u8],
    e7: &'a [u8],
    t8: &'a [u8],
    e8: &'a [u8],
    assignments: &mut [u8],
    answers: &mut [u8],
    work_tables: &mut [u8],
    work_terms: &mut [u8],
    work_assignment: &mut [u8],
    work_tallies: &mut [u8],
    work_marks: &mut [u8],
) -> u32
    ensures value { result ≡ refusal_after (room_refusal (length settings.now) (length assignments.old) (length answers.old))
        (stakes_in races.old) }
    ensures races_after { races.new
        ≡ parts_put (parts_after (room_refusal (length settings.now) (length assignments.old) (length answers.old))
        (length numbers.now / 4) (stakes_in races.old))
        races.old }
    ensures work_marks_after { buffers assignments.new answers.new
        (works work_tables.new work_terms.new work_assignment.new work_tallies.new work_marks.new)
        ≡ raced
        (given numbers.now settings.now
        (t1.now ∷ t2.now ∷ t3.now ∷ t4.now ∷ t5.now ∷ t6.now ∷ t7.now ∷ t8.now ∷ [])
        (e1.now ∷ e2.now ∷ e3.now ∷ e4.now ∷ e5.now ∷ e6.now ∷ e7.now ∷ e8.now ∷ []))
        (parts_after (room_refusal (length settings.now) (length assignments.old) (length answers.old))
        (length numbers.now / 4) (stakes_in races.old))
        (buffers assignments.old answers.old
        (works work_tables.old work_terms.old work_assignment.old
        work_tallies.old work_marks.old)) }
{
    plan_races(
        races,
        numbers,
        settings,
        t1,
        e1,
        t2,
        e2,
        t3,
        e3,
        t4,
        e4,
        t5,
        e5,
        t6,
        e6,
        t7,
        e7,
        t8,
        e8,
        assignments,
        answers,
        work_tables,
        work_terms,
        work_assignment,
        work_tallies,
        work_marks,
    )
}

// The plan of two tables as an OPB text.
#[unsafe(no_mangle)]
pub extern "C" fn planner_write_opb(tables: &[u8], terms: &[u8], text: &mut [u8]) -> Written
    ensures refusal_value { (result.refusal ≡ write_refusal tables.now terms.now text.old)
        × (result.length ≡ write_length tables.now terms.now) }
    ensures text_after { text.new ≡ text_after tables.now terms.now text.old }
{
    write_opb(tables, terms, text)
}
