// One step of the walk (Algorithm 1, lines 5 to 7): an unsatisfied clause is picked, a variable of it chosen and flipped.
// The buffers to write come one by one: one is read while another is written, which a struct of them would not let be proved.
// So do the numbers, how many of them are used and the settings: each function hands on another count of numbers and the same of the others.
#![tactic(auto)]

ghost use Rattle.std.specs.Prelude.{◌≡◌, ◌/◌, ◌≤◌, ◌<◌, length};
ghost use Rattle.words.specs.Words.{word_at};
ghost use Rattle.format.specs.Layout.{unsatisfied_at};
ghost use Rattle.settings.specs.Settings.{settings_of};
ghost use Rattle.moves.specs.Moves.{Walking, Moves, InClause};
ghost use Rattle.lending.specs.Work.{work};
ghost use Rattle.moves.specs.declared.Stop.TheVariants as stop;

use choosing::choose_in;
use columns::LIST_COUNTS;
use effects::Footing;
use keeping::flip_kept;
use numbers::{Short, nth_zero, pick};
use recount::tables::Tables;
use settings::Settings;
use stamps::stamp;
use words::index;

// Why a flip, a try, a call or a tightening came to nothing: it failed, or too few numbers were left; and what it had come to then.
#[derive(Clone, Copy, Debug, PartialEq, Eq)]
pub enum Stop<T> {
    Failed(T),
    Short(T),
}

// Why no flip was made, with how many numbers are used then: it fails where the clause has no variable to choose.
pub type Unmoved = Stop<usize>;

impl From<Short> for Stop<usize> {
    ghost from_gives = { λ s e. e ≡ stop.Short s.used };

    fn from(short: Short) -> Stop<usize> {
        Stop::Short(short.used)
    }
}

// "choose a variable of it; flip". It answers how many numbers are used after it. `turn` flips of this try stand before it, and its number, turn + 1, is kept
// as that of the variable's last flip.
fn flip_in(
    t: &Tables<'_>,
    numbers: &[u8],
    used: usize,
    s: Settings,
    turn: u32,
    c: usize,
    assignment: &mut [u8],
    tallies: &mut [u8],
    marks: &mut [u8],
) -> Result<usize, Unmoved>
    requires { Walking t.now.tables.now t.now.terms.now (work assignment.old tallies.old marks.old) × (c < word_at t.now.tables.now 1)
        × (used ≤ length numbers.now / 4) × (turn < 4_294_967_295) }
    ensures { InClause (settings_of s) t.now.tables.now t.now.terms.now numbers.now used turn c result
        (work assignment.old tallies.old marks.old)
        (work assignment.new tallies.new marks.new) }
{
    let some = index(marks, LIST_COUNTS + c);
    if some == 0 {
        return Err(Stop::Failed(used));
    }
    let footing = Footing {
        tables: t.tables,
        terms: t.terms,
        assignment,
        tallies,
    };
    let chosen = choose_in(&footing, marks, c, numbers, used, s)?;
    let x = chosen.value;
    flip_kept(t, marks, assignment, tallies, x);
    stamp(marks, x, turn + 1);
    Ok(chosen.used)
}

// "pick an unsatisfied clause": the tallies say how many there are and which. It answers how many numbers are used after the flip.
pub fn make_move(
    t: &Tables<'_>,
    numbers: &[u8],
    used: usize,
    s: Settings,
    turn: u32,
    assignment: &mut [u8],
    tallies: &mut [u8],
    marks: &mut [u8],
) -> Result<usize, Unmoved>
    requires { Walking t.now.tables.now t.now.terms.now (work assignment.old tallies.old marks.old) × (0 < word_at tallies.old unsatisfied_at)
        × (used ≤ length numbers.now / 4) × (turn < 4_294_967_295) }
    ensures { Moves (settings_of s) t.now.tables.now t.now.terms.now numbers.now used turn result
        (work assignment.old tallies.old marks.old)
        (work assignment.new tallies.new marks.new) }
{
    let unsatisfied = index(tallies, format::UNSATISFIED);
    let drawn = pick(numbers, used, unsatisfied)?;
    let clauses = index(t.tables, 1);
    let c = nth_zero(tallies, format::HOLDING, clauses, drawn.value).unwrap();
    flip_in(
        t, numbers, drawn.used, s, turn, c, assignment, tallies, marks,
    )
}
