// Which variables of a clause break nothing: they are picked out of the clause's list, in its order. The marks come by themselves: one part of them is read
// while another is written, which a struct with them in it would not let be proved.
#![tactic(auto)]

mod choice;

ghost use Rattle.std.specs.Prelude.{◌≡◌, [], ◌+◌, ◌<◌, eqb, length, get_or};
ghost use Rattle.plpb.specs.Count.{capped_break};
ghost use Rattle.plpb.specs.Choice.{choosable, with_break};
ghost use Rattle.words.specs.Words.{word_at};
ghost use Rattle.columns.specs.Layout.{list_at};
ghost use Rattle.columns.specs.Columns.{terms_ahead, Listed};
ghost use Rattle.recount.specs.Plans.{plan};
ghost use Rattle.effects.specs.Footing.{plan_on, bits_on};
ghost use Rattle.picks.specs.Picks.{Picked, Triable, Tried};
ghost use Rattle.picks.specs.Choice.{plan as plan_of, bits, variables, Marked};

pub use choice::Choice;
use columns::{LIST_COUNTS, LISTS, PICKS};
use effects::Footing;
use freely::is_free;
use listing::terms_ahead;
use recount::tables::Tables;
use std::ops::Range;
use words::{index, narrow, write_word};

// The words of the marks that list the variables of clause c that may be chosen.
pub fn list_of(t: &Tables<'_>, marks: &[u8], c: usize) -> Range<usize>
    requires { (c < length (plan t.now).clauses) × Listed (plan t.now) marks.now }
    ensures { (result.start ≡ list_at (terms_ahead (plan t.now) c))
        × (result.end ≡ result.start + length (choosable (plan t.now) (get_or (plan t.now).clauses c []))) }
{
    let start = LISTS + terms_ahead(t, c);
    start..start + index(marks, LIST_COUNTS + c)
}

// The variable that word i of the marks lists is put behind so many picks if its flip breaks nothing. A count goes with the marks, because what follows the
// picks in them, the weights and the lists, is lent too.
fn free_one(footing: &Footing<'_>, marks: &mut [u8], i: usize, count: usize) -> usize
    requires { Triable footing.now marks.old i count }
    ensures { Tried (plan_on footing.now) (eqb (capped_break (plan_on footing.now) (bits_on footing.now) (word_at marks.old i)) 0)
        (word_at marks.old i) count marks.old marks.new result }
{
    let x = index(marks, i);
    if !is_free(footing, marks, x) {
        return count;
    }
    write_word(marks, PICKS + count, narrow(x));
    count + 1
}

// Writes those of the clause's variables that may be chosen whose flip breaks nothing to the picks, in order; answers how many.
pub fn free_of(choice: &Choice<'_>, marks: &mut [u8]) -> usize
    requires { Marked choice.now marks.old }
    ensures { Picked (plan_of choice.now) (with_break (plan_of choice.now) (bits choice.now) 0 (variables choice.now)) marks.old
        marks.new result }
{
    let footing = &choice.footing;
    let mut count: usize = 0;
    for i in list_of(&footing.plan(), marks, choice.clause) {
        count = free_one(footing, marks, i, count);
    }
    count
}
