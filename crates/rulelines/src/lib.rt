// The lines of one rule, put into a lent buffer: those of a clause with no other rule, and those of the mapping τ.
// The buffer and the place in it stay two parameters, as in spelling. So do the two tables: what is needed of them is that one rule stands there, so that
// a struct of both would be made anew for each rule, and `Rule` is what is read from them.
#![tactic(auto)]

ghost use Rattle.std.specs.Prelude.{◌≡◌, ◌<◌, ◌≤◌, nat_abs, IfSome};
ghost use Rattle.counting.specs.Bound.{bound_of};
ghost use Rattle.words.specs.Words.{word_at};
ghost use Rattle.format.specs.Limits.{max_bound};
ghost use Rattle.format.specs.Tables.{rule_of};
ghost use Rattle.opb.specs.Tau.{straight, rule_lines};
ghost use Rattle.spelling.specs.Overlay.{Puts, Room};
ghost use Rattle.extremes.specs.Terms.{extreme_of, max_total};
ghost use Rattle.extremes.specs.Sums.{terms_of};
ghost use Rattle.constraints.specs.Bytes.{lines_bytes};
ghost use Rattle.constraints.specs.Sides.{turns};
ghost use Rattle.rulelines.specs.Rules.{RuleFits, past_of, bound_line, atom_lines};
ghost use Rattle.rulelines.specs.Read.{RuleRead};

use constraints::{Side, put_both, put_constraint, put_fixed};
use extremes::sum::Sum;
use integers::{minus, plus};
use rules::entry::read_entry;

// A rule in the tables: its terms and its bounds.
#[derive(Clone, Copy)]
struct Rule<'a> {
    sum: Sum<'a>,
    lower: Option<i32>,
    upper: Option<i32>,
}

// Rule r, by its entry.
fn read_rule<'a>(tables: &[u8], terms: &'a [u8], r: usize) -> Rule<'a>
    requires { RuleFits tables.now terms.now r }
    ensures { RuleRead tables.now terms.now r result }
{
    let e = read_entry(tables, format::RULES + 5 * r);
    Rule {
        sum: Sum {
            terms,
            first: e.first,
            count: e.count,
        },
        lower: e.lower,
        upper: e.upper,
    }
}

// The least sum for a lower bound, the greatest for an upper one: there the bound is met whatever the others are.
fn extreme(sum: &Sum<'_>, side: Side) -> i32
    ensures { (result ≡ extreme_of (turns side) (terms_of sum.now)) × (nat_abs result ≤ max_total) }
{
    match side {
        Side::AtLeast => sum.least(),
        Side::AtMost => sum.greatest(),
    }
}

// The first number past a bound.
// That a bound is small stands in each contract that has one: this takes the number and the other two an option of it, so that a type of its own would be
// opened in each of the three.
fn past(side: Side, bound: i32) -> i32
    requires { nat_abs bound ≤ max_bound }
    ensures { result ≡ past_of (turns side) bound }
{
    match side {
        Side::AtLeast => minus(bound, 1),
        Side::AtMost => plus(bound, 1),
    }
}

// (16) and (17) of an upper bound, (18) and (19) of a lower one, or the one line of an absent bound.
fn put_atom(
    out: &mut [u8],
    at: usize,
    sum: &Sum<'_>,
    side: Side,
    bound: Option<i32>,
    variable: usize,
) -> usize
    requires small { IfSome bound (λ b. nat_abs b ≤ max_bound) }
    requires room { Room at (lines_bytes (atom_lines (turns side) variable (bound_of bound) (terms_of sum.now))) }
    ensures { Puts (lines_bytes (atom_lines (turns side) variable (bound_of bound) (terms_of sum.now))) at out.old out.new result }
{
    let Some(b) = bound else {
        return put_fixed(out, at, variable);
    };
    let far_side = side.other();
    let end = extreme(sum, side);
    let far_end = extreme(sum, far_side);
    let next = past(side, b);
    let a = put_constraint(out, at, sum, side, minus(end, b), variable, end);
    put_constraint(out, a, sum, far_side, minus(next, far_end), variable, next)
}

// Rule r of a clause with several, with k variables before its own.
pub fn put_rule(out: &mut [u8], at: usize, tables: &[u8], terms: &[u8], r: usize, k: usize) -> usize
    requires rule_fits { RuleFits tables.now terms.now r × (k < 4_294_967_296) }
    requires room { Room at (lines_bytes (rule_lines k (rule_of (word_at tables.now) (word_at terms.now) r))) }
    ensures { Puts (lines_bytes (rule_lines k (rule_of (word_at tables.now) (word_at terms.now) r))) at
        out.old out.new result }
{
    let rule = read_rule(tables, terms, r);
    let a = put_atom(out, at, &rule.sum, Side::AtMost, rule.upper, k + 2);
    let b = put_atom(out, a, &rule.sum, Side::AtLeast, rule.lower, k + 1);
    put_both(out, b, k)
}

// The line of a bound in a clause of one rule; none where there is no bound. A term with coefficient 0 is left out of every line: the 0 is that rule, and no
// mark for none.
fn put_bound(out: &mut [u8], at: usize, sum: &Sum<'_>, side: Side, bound: Option<i32>) -> usize
    requires small { IfSome bound (λ b. nat_abs b ≤ max_bound) }
    requires room { Room at (lines_bytes (bound_line (turns side) (bound_of bound) (terms_of sum.now))) }
    ensures { Puts (lines_bytes (bound_line (turns side) (bound_of bound) (terms_of sum.now))) at out.old out.new result }
{
    let Some(b) = bound else {
        return at;
    };
    put_constraint(out, at, sum, side, 0, 0, b)
}

// The rule of a clause with no other: "single-rule clauses written straight", "bounds (lower first)".
pub fn put_straight(out: &mut [u8], at: usize, tables: &[u8], terms: &[u8], r: usize) -> usize
    requires rule_fits { RuleFits tables.now terms.now r }
    requires room { Room at (lines_bytes (straight (rule_of (word_at tables.now) (word_at terms.now) r))) }
    ensures { Puts (lines_bytes (straight (rule_of (word_at tables.now) (word_at terms.now) r))) at
        out.old out.new result }
{
    let rule = read_rule(tables, terms, r);
    let a = put_bound(out, at, &rule.sum, Side::AtLeast, rule.lower);
    put_bound(out, a, &rule.sum, Side::AtMost, rule.upper)
}
