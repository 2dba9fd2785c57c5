// Flip without its checks: one assignment byte is turned over, and the tallies follow along the variable's run in the order of the tables. Only P of the
// rules that name the variable, the counts of their clauses and the total are written.
// The tallies, and the assignment where it is turned over, stand beside what is read: in one struct with it they would be read while they are lent for writing,
// which the proof of borrows does not cover.
#![tactic(auto)]

ghost use Rattle.std.specs.Prelude.{◌≡◌, cond, ◌+◌, ◌-◌, ◌≤◌, ◌<◌, length};
ghost use Rattle.plpb.specs.Lists.{◌and◌};
ghost use Rattle.plpb.specs.Normal.{below_size};
ghost use Rattle.plpb.specs.Tallies.{rules_named};
ghost use Rattle.counting.specs.Bound.{bound_of};
ghost use Rattle.words.specs.Words.{word_at};
ghost use Rattle.order.specs.Order.{word_place};
ghost use Rattle.order.specs.Along.{exchanged as exchangedOf};
ghost use Rattle.rules.specs.Terms.{bits_in};
ghost use Rattle.rules.specs.State.{Balanced};
ghost use Rattle.tallies.specs.Layout.{with_tallies};
ghost use Rattle.tallies.specs.Calls.{turned};
ghost use Rattle.recount.specs.Core.{Flippable, recounted};
ghost use Rattle.recount.specs.Plans.{plan, rule};
ghost use Rattle.flips.specs.Passing.{Countable, ClausePassed, Passable, Passed, Inside, Followable};

use format::{HOLDING, ORDER, UNSATISFIED};
use places::{clause_in, rule_in};
use recount::clause::run_of;
use recount::lent::Lent;
use recount::tables::Tables;
use rules::state::State;
use words::{narrow, word, write_word};

fn opposite(b: u8) -> u8
    ensures { result ≡ 1 - b }
{
    u8::from(b == 0)
}

// Turns a variable's byte over.
pub fn turn(assignment: &mut [u8], x: u32)
    requires { (0 < x) × (x ≤ length assignment.old) }
    ensures { assignment.new ≡ turned assignment.old x }
{
    let i = (x - 1) as usize;
    assignment[i] = opposite(assignment[i]);
}

// One less where the first is so, one more where the second is: two facts that are counted, by which no step is chosen.
fn exchanged(gone: bool, come: bool, n: u32) -> u32
    requires { (cond gone 1 0 ≤ n) × (n < 4_294_967_295) }
    ensures { result ≡ exchangedOf gone come n }
{
    n + u32::from(come) - u32::from(gone)
}

// Whether a rule in this state held when its true literals weighed p.
fn held_with(s: State, p: u32) -> bool
    requires { Balanced s × (p ≤ s.n + s.p) }
    ensures { result ≡ (below_size (s.n + s.p - p) (bound_of s.a) and below_size p (bound_of s.b)) }
{
    let before = State {
        n: s.n + s.p - p,
        p,
        ..s
    };
    before.holds()
}

// Whether a rule held before, and whether it holds: two facts, each of which may be so without the other.
#[derive(Clone, Copy)]
pub struct Change {
    pub held: bool,
    pub holds: bool,
}

// How many rules of a clause hold, and how many clauses hold none, once one rule of it does not hold any more, or does again.
pub fn pass_clause(tallies: &mut [u8], c: usize, change: Change)
    requires { Countable c change.held tallies.old }
    ensures { ClausePassed c change.held change.holds tallies.old tallies.new }
{
    let before = word(tallies, HOLDING + c);
    let total = word(tallies, UNSATISFIED);
    let after = exchanged(change.held, change.holds, before);
    write_word(tallies, HOLDING + c, after);
    write_word(
        tallies,
        UNSATISFIED,
        exchanged(before == 0, after == 0, total),
    );
}

// One place of the run: the tallies of its rule and of its clause. The bits are those after the flip.
fn pass(lent: &Lent<'_>, tallies: &mut [u8], w: u32)
    requires { ((word_place w).rule < word_at lent.now.plan.tables.now 2)
        × Passable (rule lent.now.plan (word_place w).rule) (word_place w).rule (word_place w).clause tallies.old }
    ensures { Passed (rule lent.now.plan (word_place w).rule) (bits_in lent.now.bits.now)
        (word_place w).rule (word_place w).clause tallies.old tallies.new
        × Inside tallies.old tallies.new }
{
    let r = rule_in(w);
    let s = lent.state(r);
    let held = held_with(s, word(tallies, r));
    write_word(tallies, r, s.p);
    let change = Change {
        held,
        holds: s.holds(),
    };
    pass_clause(tallies, clause_in(w), change);
}

// The whole run of x; it answers how many rules it passed. The places are told by the indices of their words, where a slice would count bytes.
fn follow(lent: &Lent<'_>, tallies: &mut [u8], x: usize) -> u32
    requires { Followable lent.now.plan.tables.now lent.now.plan.terms.now lent.now.bits.now tallies.old x }
    ensures { (result ≡ rules_named (plan lent.now.plan) x)
        × (tallies.new ≡ with_tallies (plan lent.now.plan) (bits_in lent.now.bits.now) tallies.old) }
{
    let tables = lent.plan.tables;
    let run = run_of(tables, x);
    for k in run.start..run.end {
        pass(lent, tallies, word(tables, ORDER + k));
    }
    narrow(run.end - run.start)
}

// Turns a variable over; it answers how many rule tallies were rewritten, "which equals the number of rules naming the variable".
pub fn flip_core(t: &Tables<'_>, assignment: &mut [u8], tallies: &mut [u8], x: u32) -> u32
    requires { Flippable t.now.tables.now t.now.terms.now assignment.old tallies.old x }
    ensures { (result ≡ rules_named (plan t.now) x)
        × (assignment.new ≡ turned assignment.old x)
        × (tallies.new ≡ recounted t.now.tables.now t.now.terms.now (turned assignment.old x) tallies.old) }
{
    turn(assignment, x);
    follow(&Lent::of(*t, assignment), tallies, x as usize)
}
