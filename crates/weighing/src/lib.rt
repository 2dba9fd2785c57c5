// The weights of the order's entries, side by side with them, so that whoever goes along a variable's run reads no term.
#![tactic(auto)]

ghost use Rattle.std.specs.Prelude.{◌≡◌, ◌≤◌, ◌<◌, length, get_or};
ghost use Rattle.plpb.specs.Normal.{size};
ghost use Rattle.order.specs.Order.{order, term_at, term_count};
ghost use Rattle.recount.specs.Plans.{plan};
ghost use Rattle.columns.specs.Layout.{column_size, weight_at, list_count_at};
ghost use Rattle.columns.specs.Columns.{no_place, Weighed};
ghost use Rattle.columns.specs.Frames.{Only};

use columns::WEIGHTS;
use format::{ORDER, RULES};
use places::{rule_in, term_in};
use recount::tables::Tables;
use words::{index, magnitude, to_signed, word, write_word};

// The weight of entry k of the order: the size of its term's coefficient.
fn entry_weight(t: &Tables<'_>, k: usize) -> u32
    requires { k < term_count (plan t.now) }
    ensures { result ≡ size (term_at (plan t.now) (get_or (order (plan t.now)) k no_place)) }
{
    let w = word(t.tables, ORDER + k);
    let i = index(t.tables, RULES + 5 * rule_in(w)) + term_in(w);
    magnitude(to_signed(word(t.terms, 2 * i + 1)))
}

// The weights of all entries, each at its index behind the same word. The marks come beside the tables that are read, for in one struct with them they would be
// read while they are lent for writing, which the proof of borrows does not cover.
pub fn weigh(t: &Tables<'_>, marks: &mut [u8])
    requires { column_size ≤ length marks.old }
    ensures { Weighed (plan t.now) marks.new × Only (weight_at 0) (list_count_at 0) marks.old marks.new }
{
    let count = index(t.tables, 3);
    for k in 0..count {
        write_word(marks, WEIGHTS + k, entry_weight(t, k));
    }
}
