// The walk's columns that depend on the plan alone, worked out anew for the tables as they stand: K, A and B of the rules, the weights of the order's entries,
// the variables that may be chosen of each clause. It takes time linear in the terms.
// The tallies and the marks come one by one beside the tables that are read: in one struct they would be read while a part of it is lent for writing, which the
// proof of borrows does not cover. C lends them as long as it likes, so that their sizes stand in clauses and in no array's type.
#![tactic(auto)]

ghost use Rattle.std.specs.Prelude.{◌≤◌, length};
ghost use Rattle.recount.specs.Plans.{plan};
ghost use Rattle.columns.specs.Layout.{column_size, column_word_count, hint_at, kept_size, need_at, picks_at, total_at};
ghost use Rattle.columns.specs.Columns.{Hinted, Listed, Sized, Unhinted, Weighed};
ghost use Rattle.columns.specs.Frames.{Only};

use columns::{HINTS, PICKS};
use listing::list_clauses;
use recount::tables::Tables;
use sizing::size_rules;
use weighing::weigh;

// No variable has a hint that tells a side: each names the order's first place, which is looked at as any other.
fn clear_hints(marks: &mut [u8])
    requires { column_size ≤ length marks.old }
    ensures { Unhinted marks.new × Only (hint_at 1) picks_at marks.old marks.new }
{
    marks[4 * (HINTS + 1)..4 * PICKS].fill(0);
}

// Writes all of these columns. Each function writes its own words and leaves the others, which is what the clauses say of it.
pub fn prepare(t: &Tables<'_>, tallies: &mut [u8], marks: &mut [u8])
    requires { (kept_size ≤ length tallies.old) × (column_size ≤ length marks.old) }
    ensures { Sized (plan t.now) tallies.new × Weighed (plan t.now) marks.new × Listed (plan t.now) marks.new
        × Hinted (plan t.now) marks.new
        × Only (total_at 0) (need_at 0) tallies.old tallies.new
        × Only (hint_at 1) column_word_count marks.old marks.new }
{
    clear_hints(marks);
    size_rules(t, tallies);
    weigh(t, marks);
    list_clauses(t, marks);
}
