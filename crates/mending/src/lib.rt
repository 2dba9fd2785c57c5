// What a flip mends at the places of a variable's run: of a clause of one rule what it mends of the rule; of one of several rules nothing where one of its
// rules holds or where it mends a part of none of those that name the variable.
#![tactic(auto)]

ghost use Rattle.std.specs.Prelude.{◌≡◌, false, ◌+◌, ◌<◌, ltb};
ghost use Rattle.plpb.specs.Lists.{any};
ghost use Rattle.plpb.specs.Count.{capped};
ghost use Rattle.plpb.specs.Equations.{clause_make};
ghost use Rattle.counting.specs.Count.{number};
ghost use Rattle.counting.specs.Bound.{bound_of};
ghost use Rattle.order.specs.Breaks.{reaches};
ghost use Rattle.rules.specs.State.{Balanced, shares_from};
ghost use Rattle.effects.specs.Run.{Inside, rule, bits as bits_of};
ghost use Rattle.groups.specs.Group.{bits, clause, rules};
ghost use Rattle.mending.specs.Mends.{mends_part};

use counting::count::Count;
use effects::Run;
use format::HOLDING;
use groups::Group;
use rules::place::Stands;
use rules::state::State;
use spoiling::spoiled;
use words::word;

// f of a rule in this state, equation (11): what the flip mends is what turning the variable back would spoil.
pub fn mended(s: State) -> Count
    requires { Balanced s }
    ensures { number result ≡ capped (shares_from s).f }
{
    spoiled(s.flipped())
}

// Whether there are more ways to choose as many as the bound's size of m + w than of m. The three stay apart, as equation (11) and `counting::bound` have them.
fn reached(m: u64, w: u64, bound: Option<u64>) -> bool
    requires { m + w < 4294967296 }
    ensures { result ≡ reaches m w (bound_of bound) }
{
    bound.is_some_and(|k| 0 < k && 0 < w && k <= m + w)
}

// Whether f is above 0, told without a binomial. This matches as `spoiling::spoiled` does on the flipped state, whose numbers it forms itself. Why the two
// share no function of the side stands at `spoiling::surely_past`.
fn mends(s: State) -> bool
    requires { Balanced s }
    ensures { result ≡ ltb 0 (shares_from s).f }
{
    let n = s.n as u64;
    let p = s.p as u64;
    match s.stands {
        Stands::Out => false,
        Stands::On(w) => reached(p - w as u64, w as u64, s.b),
        Stands::Off(w) => reached(n - w as u64, w as u64, s.a),
    }
}

// Whether the flip mends a part of the rule at place k.
fn mends_at(run: &Run<'_, '_>, k: usize) -> bool
    requires { Inside run.now k }
    ensures { result ≡ mends_part (bits_of run.now) run.now.x (rule run.now k) }
{
    mends(run.state_at(k))
}

// Whether the flip mends a part of one of the group's rules.
fn any_mends(group: &Group<'_>) -> bool
    ensures { result ≡ any (mends_part (bits group.now) group.now.run.now.x) (rules group.now) }
{
    (group.first..group.end).any(|i| mends_at(group.run, i))
}

// Whether the flip may mend something of the group's clause: where it says no, it mends nothing. It asks again whether a rule holds, so that it says so of any
// group.
pub fn group_mends(group: &Group<'_>) -> bool
    ensures { result ≡ false → clause_make (bits group.now) group.now.run.now.x (clause group.now) ≡ 0 }
{
    let run = group.run;
    if word(run.footing.tallies, HOLDING + group.clause) != 0 {
        return false;
    }
    any_mends(group)
}
