// Up to 8 races searched one after another, each with its part of one list of numbers. Each answer and assignment goes to its race's place in a buffer
// that has one for each race; the work tables serve every race.
// The buffers to write come one by one: one is read while another is written, which a struct of them would not let be proved. Each may have any length, as C
// lends it: the call answers 21 for one that is too short, so that no type can have its length.
#![tactic(auto)]

ghost use Rattle.std.specs.Prelude.{◌≡◌, cond, List, [], ◌∷◌, ℕ, ◌+◌, ◌*◌, ◌/◌, ◌≤◌, ◌<◌, length, get_or};
ghost use Rattle.format.specs.Assignment.{assignment_size};
ghost use Rattle.division.specs.Split.{refusal_after, parts_after};
ghost use Rattle.division.specs.Eight.{kept, laid, refusal_in, parts_in};
ghost use Rattle.exchange.specs.Exchange.{settings_size, answer_size};
ghost use Rattle.races.specs.Races.{stakes_in, parts_put};
ghost use Rattle.festival.specs.Own.{works};
ghost use Rattle.festival.specs.Festival.{given, given_in, buffers, place, race_once, race_next, raced, room_refusal, Fits};

use division::{Part, Parts, Refusal, Stakes, divide};
use exchange::{put_answer, settings_at};
use races::{put_in, stakes_in};
use search::search;
use settings::Settings;

// The races that there is room for in a buffer that has a place for each.
const RACES: usize = 8;

const ALL_SETTINGS: usize = RACES * exchange::SETTINGS;

const ALL_ASSIGNMENTS: usize = RACES * format::ASSIGNMENT;

const ALL_ANSWERS: usize = RACES * exchange::ANSWER;

// What is read: the list of numbers, the settings, and the plans in the races' order, t for their tables and e for their terms. Each slice is a field: an array
// of slices would be copied where one is picked out of it, and no call of the library has a local array but of numbers.
#[derive(Clone, Copy)]
pub struct Given<'a> {
    pub numbers: &'a [u8],
    pub settings: &'a [u8],
    pub t1: &'a [u8],
    pub e1: &'a [u8],
    pub t2: &'a [u8],
    pub e2: &'a [u8],
    pub t3: &'a [u8],
    pub e3: &'a [u8],
    pub t4: &'a [u8],
    pub e4: &'a [u8],
    pub t5: &'a [u8],
    pub e5: &'a [u8],
    pub t6: &'a [u8],
    pub e6: &'a [u8],
    pub t7: &'a [u8],
    pub e7: &'a [u8],
    pub t8: &'a [u8],
    pub e8: &'a [u8],
}

// Whether each of these lengths is enough for 8 races.
fn has_room(settings: usize, assignments: usize, answers: usize) -> bool
    ensures { room_refusal settings assignments answers ≡ cond result 0 21 }
{
    ALL_SETTINGS <= settings && ALL_ASSIGNMENTS <= assignments && ALL_ANSWERS <= answers
}

// One of eight slices, by its place from 0.
fn one_of<'a>(
    i: usize,
    a: &'a [u8],
    b: &'a [u8],
    c: &'a [u8],
    d: &'a [u8],
    e: &'a [u8],
    f: &'a [u8],
    g: &'a [u8],
    h: &'a [u8],
) -> &'a [u8]
    requires { i < 8 }
    ensures { result.now
        ≡ get_or (a.now ∷ b.now ∷ c.now ∷ d.now ∷ e.now ∷ f.now ∷ g.now
        ∷ h.now ∷ []) i [] }
{
    match i {
        0 => a,
        1 => b,
        2 => c,
        3 => d,
        4 => e,
        5 => f,
        6 => g,
        _ => h,
    }
}

// One race: its search, whose assignment and answer go to the race's places.
// What it reads comes one by one, as its search takes it.
fn race_one(
    i: usize,
    tables: &[u8],
    terms: &[u8],
    numbers: &[u8],
    s: Settings,
    assignments: &mut [u8],
    answers: &mut [u8],
    work_tables: &mut [u8],
    work_terms: &mut [u8],
    work_assignment: &mut [u8],
    work_tallies: &mut [u8],
    work_marks: &mut [u8],
)
    requires { (assignment_size * i + assignment_size ≤ length assignments.old) × (answer_size * i + answer_size ≤ length answers.old) }
    ensures { buffers assignments.new answers.new
        (works work_tables.new work_terms.new work_assignment.new work_tallies.new work_marks.new)
        ≡ race_once i
        (record {
          tables = tables.now;
          terms = terms.now;
          numbers = numbers.now;
          assignment = place assignment_size i assignments.old;
          asked = s;
        })
        (buffers assignments.old answers.old
        (works work_tables.old work_terms.old work_assignment.old
        work_tallies.old work_marks.old)) }
{
    let from = format::ASSIGNMENT * i;
    let end = from + format::ASSIGNMENT;
    let start = exchange::ANSWER * i;
    let past = start + exchange::ANSWER;
    let r = search(
        tables,
        terms,
        numbers,
        s,
        &mut assignments[from..end],
        work_tables,
        work_terms,
        work_assignment,
        work_tallies,
        work_marks,
    );
    put_answer(&mut answers[start..past], r);
}

// Race i, from 0, with its part of the numbers.
fn race_at(
    i: usize,
    part: Part,
    g: &Given<'_>,
    assignments: &mut [u8],
    answers: &mut [u8],
    work_tables: &mut [u8],
    work_terms: &mut [u8],
    work_assignment: &mut [u8],
    work_tallies: &mut [u8],
    work_marks: &mut [u8],
)
    requires { Fits i part.first part.length (length g.now.numbers.now) (length g.now.settings.now) (length assignments.old) (length answers.old) }
    ensures { buffers assignments.new answers.new
        (works work_tables.new work_terms.new work_assignment.new work_tallies.new work_marks.new)
        ≡ race_next (given_in g.now) i part
        (buffers assignments.old answers.old
        (works work_tables.old work_terms.old work_assignment.old
        work_tallies.old work_marks.old)) }
{
    let tables = one_of(i, g.t1, g.t2, g.t3, g.t4, g.t5, g.t6, g.t7, g.t8);
    let terms = one_of(i, g.e1, g.e2, g.e3, g.e4, g.e5, g.e6, g.e7, g.e8);
    let s = settings_at(g.settings, i);
    let from = 4 * part.first;
    let end = from + 4 * part.length;
    race_one(
        i,
        tables,
        terms,
        &g.numbers[from..end],
        s,
        assignments,
        answers,
        work_tables,
        work_terms,
        work_assignment,
        work_tallies,
        work_marks,
    );
}

// All races that have a part. A race goes by its number: plans, settings and places are told by it, so that the loop is over the numbers.
fn race_all(
    p: Parts,
    g: &Given<'_>,
    assignments: &mut [u8],
    answers: &mut [u8],
    work_tables: &mut [u8],
    work_terms: &mut [u8],
    work_assignment: &mut [u8],
    work_tallies: &mut [u8],
    work_marks: &mut [u8],
)
    requires { (none : Part) (i : ℕ) → i < p.count
        → Fits i (get_or p.parts i none).first (get_or p.parts i none).length (length g.now.numbers.now) (length g.now.settings.now)
        (length assignments.old) (length answers.old) }
    ensures { buffers assignments.new answers.new
        (works work_tables.new work_terms.new work_assignment.new work_tallies.new work_marks.new)
        ≡ raced (given_in g.now) (laid p)
        (buffers assignments.old answers.old
        (works work_tables.old work_terms.old work_assignment.old
        work_tallies.old work_marks.old)) }
{
    let count = p.count;
    let parts = p.parts;
    for i in 0..count {
        race_at(
            i,
            parts[i],
            g,
            assignments,
            answers,
            work_tables,
            work_terms,
            work_assignment,
            work_tallies,
            work_marks,
        );
    }
}

// A festival of the races with these stakes: a refusal and nothing written, or each race's part, answer and assignment.
pub fn plan_all(
    stakes: Stakes,
    g: &Given<'_>,
    assignments: &mut [u8],
    answers: &mut [u8],
    work_tables: &mut [u8],
    work_terms: &mut [u8],
    work_assignment: &mut [u8],
    work_tallies: &mut [u8],
    work_marks: &mut [u8],
) -> Result<Parts, Refusal>
    ensures by_index { (ss : List ℕ) → stakes ≡ kept ss
        → (refusal_in result ≡ refusal_after (room_refusal (length g.now.settings.now) (length assignments.old) (length answers.old)) ss)
        × (parts_in result
        ≡ parts_after (room_refusal (length g.now.settings.now) (length assignments.old) (length answers.old))
        (length g.now.numbers.now / 4) ss) }
    ensures work_marks_after { buffers assignments.new answers.new
        (works work_tables.new work_terms.new work_assignment.new work_tallies.new work_marks.new)
        ≡ raced (given_in g.now) (parts_in result)
        (buffers assignments.old answers.old
        (works work_tables.old work_terms.old work_assignment.old
        work_tallies.old work_marks.old)) }
{
    if !has_room(g.settings.len(), assignments.len(), answers.len()) {
        return Err(Refusal::NoRoom);
    }
    let p = divide(stakes, g.numbers.len() / 4)?;
    race_all(
        p,
        g,
        assignments,
        answers,
        work_tables,
        work_terms,
        work_assignment,
        work_tallies,
        work_marks,
    );
    Ok(p)
}

// The call: the races stand in the list as records of three numbers, stake, first place and length.
// Each plan's slices come by themselves, because the C interface hands over a pointer and a length for each, and the refusal goes out as its number.
pub fn plan_races<'a>(
    races: &mut [usize],
    numbers: &'a [u8],
    settings: &'a [u8],
    t1: &'a [u8],
    e1: &'a [u8],
    t2: &'a [u8],
    e2: &'a [u8],
    t3: &'a [u8],
    e3: &'a [u8],
    t4: &'a [u8],
    e4: &'a [u8],
    t5: &'a [u8],
    e5: &'a [u8],
    t6: &'a [u8],
    e6: &'a [u8],
    t7: &'a [u8],
    e7: &'a [u8],
    t8: &'a [u8],
    e8: &'a [u8],
    assignments: &mut [u8],
    answers: &mut [u8],
    work_tables: &mut [u8],
    work_terms: &mut [u8],
    work_assignment: &mut [u8],
    work_tallies: &mut [u8],
    work_marks: &mut [u8],
) -> u32
    ensures value { result ≡ refusal_after (room_refusal (length settings.now) (length assignments.old) (length answers.old))
        (stakes_in races.old) }
    ensures races_after { races.new
        ≡ parts_put (parts_after (room_refusal (length settings.now) (length assignments.old) (length answers.old))
        (length numbers.now / 4) (stakes_in races.old))
        races.old }
    ensures work_marks_after { buffers assignments.new answers.new
        (works work_tables.new work_terms.new work_assignment.new work_tallies.new work_marks.new)
        ≡ raced
        (given numbers.now settings.now
        (t1.now ∷ t2.now ∷ t3.now ∷ t4.now ∷ t5.now ∷ t6.now ∷ t7.now ∷ t8.now ∷ [])
        (e1.now ∷ e2.now ∷ e3.now ∷ e4.now ∷ e5.now ∷ e6.now ∷ e7.now ∷ e8.now ∷ []))
        (parts_after (room_refusal (length settings.now) (length assignments.old) (length answers.old))
        (length numbers.now / 4) (stakes_in races.old))
        (buffers assignments.old answers.old
        (works work_tables.old work_terms.old work_assignment.old
        work_tallies.old work_marks.old)) }
{
    let stakes = stakes_in(races);
    let g = Given {
        numbers,
        settings,
        t1,
        e1,
        t2,
        e2,
        t3,
        e3,
        t4,
        e4,
        t5,
        e5,
        t6,
        e6,
        t7,
        e7,
        t8,
        e8,
    };
    let planned = plan_all(
        stakes,
        &g,
        assignments,
        answers,
        work_tables,
        work_terms,
        work_assignment,
        work_tallies,
        work_marks,
    );
    match planned {
        Ok(p) => {
            put_in(races, p);
            0
        }
        Err(refusal) => u32::from(refusal),
    }
}
