// K, A and B of every rule, in words behind the tallies. They are the same under every assignment, so a search works them out once and no move goes through a
// rule's terms for them.
// The tallies come beside the tables that are read: in one struct with them they would be read while they are lent for writing, which the proof of borrows does
// not cover. C lends them as long as it likes, so that their size stands in clauses and in no array's type.
#![tactic(auto)]

ghost use Rattle.std.specs.Prelude.{◌≡◌, ◌≤◌, ◌<◌, length};
ghost use Rattle.counting.specs.Bound.{bound_of};
ghost use Rattle.words.specs.Words.{word_at};
ghost use Rattle.format.specs.Layout.{rule_room};
ghost use Rattle.recount.specs.Plans.{plan};
ghost use Rattle.columns.specs.Layout.{kept_size, need_at, total_at};
ghost use Rattle.columns.specs.Columns.{Sized, size_word};
ghost use Rattle.columns.specs.Frames.{Only};
ghost use Rattle.sizing.specs.Sizing.{Small, SizesPut, RuleSized};

use columns::{LOWER_SIZES, NEVER, TOTALS, UPPER_SIZES};
use recount::lent::Lent;
use recount::tables::Tables;
use words::{index, write_word};

// A or B in a word.
fn size_word(size: Option<u64>) -> u32
    requires { Small (bound_of size) }
    ensures { result ≡ size_word (bound_of size) }
{
    size.map_or(NEVER, |k| k as u32)
}

// K, A and B in the three words of the rule's row.
fn put_sizes(tallies: &mut [u8], r: usize, k: u32, a: u32, b: u32)
    requires { (r < rule_room) × (kept_size ≤ length tallies.old) }
    ensures { SizesPut r k a b tallies.old tallies.new }
{
    write_word(tallies, TOTALS + 3 * r, k);
    write_word(tallies, LOWER_SIZES + 3 * r, a);
    write_word(tallies, UPPER_SIZES + 3 * r, b);
}

// The words of rule r.
fn size_rule(lent: &Lent<'_>, tallies: &mut [u8], r: usize)
    requires { (r < word_at lent.now.plan.tables.now 2) × (kept_size ≤ length tallies.old) }
    ensures { RuleSized lent.now.plan.tables.now lent.now.plan.terms.now r tallies.old tallies.new }
{
    let s = lent.state(r);
    put_sizes(tallies, r, s.n + s.p, size_word(s.a), size_word(s.b));
}

// The words of all rules. The terms' bytes stand in for an assignment: N and P together are K whatever it is.
pub fn size_rules(t: &Tables<'_>, tallies: &mut [u8])
    requires { kept_size ≤ length tallies.old }
    ensures { Sized (plan t.now) tallies.new × Only (total_at 0) (need_at 0) tallies.old tallies.new }
{
    let lent = Lent {
        plan: *t,
        bits: t.terms,
    };
    let rules = index(t.tables, 2);
    for r in 0..rules {
        size_rule(&lent, tallies, r);
    }
}
