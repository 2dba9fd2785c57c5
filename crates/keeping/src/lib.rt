// A flip on what is kept. It goes along the variable's run and reads of each place its word in the order, its weight, and P, K, A and B of its rule: no term.
// It writes P and the two needs, and the clause's count and the total only where the rule's holding changes.
// The tallies, and the assignment where it is turned over, come one by one beside what is read: in one struct they would be read while a part of it is lent for
// writing, which the proof of borrows does not cover, and each function would have to promise that each field is still the same buffer.
#![tactic(auto)]

ghost use Rattle.std.specs.Prelude.{◌≡◌, ◌≤◌, not, ◌%◌, length};
ghost use Rattle.order.specs.Order.{word_place};
ghost use Rattle.rules.specs.Terms.{bits_in};
ghost use Rattle.tallies.specs.Layout.{bits_of};
ghost use Rattle.tallies.specs.Calls.{turned};
ghost use Rattle.recount.specs.Plans.{plan};
ghost use Rattle.columns.specs.Columns.{Sized};
ghost use Rattle.flips.specs.Passing.{Countable, ClausePassed};
ghost use Rattle.keeping.specs.Keeping.{was_true, Turnable, RuleTurned, PlaceTurnable, PlaceTurned};
ghost use Rattle.keeping.specs.Flip.{Followed, Keepable, Kept};

use columns::WEIGHTS;
use flips::{Change, pass_clause, turn};
use format::ORDER;
use needs::{fill_needs, put_needs, read_rule};
use places::{clause_in, rule_in};
use recount::clause::run_of;
use recount::lent::Lent;
use recount::open::open_core;
use recount::tables::Tables;
use rules::term::value_of;
use words::{word, write_word};

// Whether the literal that a word of the order tells was true before the flip that left its variable with this value: a negated one was where the variable is
// true now.
fn was_true(w: u32, value: bool) -> bool
    ensures { result ≡ was_true w value }
{
    value == (w % 2 == 1)
}

// One literal of a rule is turned over: P and the needs follow. Whether it was true before is a fact of the literal, which tells the side that its weight
// leaves: an enum of the two sides would be made of that fact, and matched in `moved` alone.
fn turn_rule(tallies: &mut [u8], r: usize, on: bool, w: u32) -> Change
    requires { Turnable on w r tallies.old }
    ensures { RuleTurned on w r result tallies.old tallies.new }
{
    let before = read_rule(tallies, r);
    let after = before.moved(on, w);
    write_word(tallies, r, after.p);
    put_needs(tallies, r, after);
    Change {
        held: before.holds(),
        holds: after.holds(),
    }
}

// The clause's count and the total follow where a rule that held holds no more, or the reverse. Both are facts of the rule: they are compared and counted.
fn pass_change(tallies: &mut [u8], c: usize, change: Change)
    requires { Countable c change.held tallies.old }
    ensures { ClausePassed c change.held change.holds tallies.old tallies.new }
{
    if change.held == change.holds {
        return;
    }
    pass_clause(tallies, c, change);
}

// One place of the run, of which the word in the order is o and the weight w.
fn pass(tallies: &mut [u8], o: u32, value: bool, w: u32)
    requires { PlaceTurnable (was_true o value) w (word_place o) tallies.old }
    ensures { PlaceTurned (was_true o value) w (word_place o) tallies.old tallies.new }
{
    let change = turn_rule(tallies, rule_in(o), was_true(o, value), w);
    pass_change(tallies, clause_in(o), change);
}

// The whole run of x. The terms are not read: with the tables they say the plan. The places are told by the indices of their words, of which two tables have
// one each: slices of both would count bytes.
fn follow(lent: &Lent<'_>, marks: &[u8], tallies: &mut [u8], x: u32)
    requires { Followed lent.now.plan.tables.now lent.now.plan.terms.now marks.now lent.now.bits.now tallies.old x }
    ensures { Kept (plan lent.now.plan) (bits_in lent.now.bits.now) tallies.old tallies.new }
{
    let tables = lent.plan.tables;
    let value = value_of(lent.bits, x);
    let run = run_of(tables, x as usize);
    for k in run.start..run.end {
        pass(
            tallies,
            word(tables, ORDER + k),
            value,
            word(marks, WEIGHTS + k),
        );
    }
}

// Turns a variable over, and what is kept of the assignment follows.
pub fn flip_kept(t: &Tables<'_>, marks: &[u8], assignment: &mut [u8], tallies: &mut [u8], x: u32)
    requires { Keepable t.now.tables.now t.now.terms.now marks.now assignment.old tallies.old x }
    ensures { (assignment.new ≡ turned assignment.old x)
        × Kept (plan t.now) (bits_of (plan t.now).variables (turned assignment.old x)) tallies.old tallies.new }
{
    turn(assignment, x);
    follow(&Lent::of(*t, assignment), marks, tallies, x);
}

// The tallies of an assignment, counted anew, and the needs behind them.
pub fn open_kept(t: &Tables<'_>, assignment: &[u8], tallies: &mut [u8])
    requires { ((plan t.now).variables ≤ length assignment.now) × Sized (plan t.now) tallies.old }
    ensures { Kept (plan t.now) (bits_of (plan t.now).variables assignment.now) tallies.old tallies.new }
{
    open_core(t, assignment, tallies);
    fill_needs(t, tallies);
}
