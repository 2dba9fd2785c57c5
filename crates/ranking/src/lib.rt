// How Novelty+ ranks the variables to choose from: by what their flip mends less what it breaks, then by how long they are unflipped, then by number.
// Of the ranking only the first two are kept.
#![tactic(auto)]

ghost use Rattle.std.specs.Prelude.{◌≡◌, List, ◌∷◌, ℕ};
ghost use Rattle.plpb.specs.Plan.{Plan, Assignment};
ghost use Rattle.effects.specs.Footing.{plan_on, bits_on, HasPlaces};
ghost use Rattle.effects.specs.Run.{plan as plan_of, bits as bits_of};
ghost use Rattle.picks.specs.Choice.{plan, bits, variables, Rankable};
ghost use Rattle.stamps.specs.Stamps.{stamp_in};
ghost use Rattle.ranking.specs.Ranking.{raised_score, comes_before, Stands, From, Ranks};

use counting::count::Count;
use counts::make_of;
use effects::{Footing, Run};
use picks::{Choice, list_of};
use spoiling::break_of;
use stamps::last_flip;
use words::word;

// A variable as it is ranked: make minus break, above the least that this can be; the number of its last flip; its number.
#[derive(Clone, Copy)]
pub struct Standing {
    pub score: u64,
    pub last: u32,
    pub variable: u32,
}

// The first two of some ranked variables, each where there is one, and the number of the last flip among all of them.
#[derive(Clone, Copy)]
pub struct Top {
    pub first: Option<Standing>,
    pub second: Option<Standing>,
    pub latest: u32,
}

impl Top {
    pub const NONE: Top = Top {
        first: None,
        second: None,
        latest: 0,
    };
}

// "make minus break, where a cut count stands as 4,294,967,295", raised by 4,294,967,295; None says that it is below the least. The break count is made behind the
// make count, and given up once it takes the score there; where even a cut one leaves the score at the least, none is too great. Among counts a cut one stands
// above 4,294,967,295, which is all that it takes off a score.
fn score_of(run: &Run<'_, '_>, least: u64) -> Option<u64>
    ensures { From least (raised_score (plan_of run.now) (bits_of run.now) run.now.x) result }
{
    let cap = Count::CAP.rank();
    let most = make_of(run).rank().min(cap) + cap;
    let room = most.checked_sub(least)?;
    let limit = if room < cap { room } else { Count::CUT.rank() };
    let breaks = break_of(run, limit)?;
    Some(most - breaks.min(cap))
}

// "highest first"; "equals by longest unflipped in this try (never flipped first), then by number"
fn comes_before(a: Standing, b: Standing) -> bool
    ensures { result ≡ comes_before a b }
{
    (b.score, a.last, a.variable) < (a.score, b.last, b.variable)
}

// One variable more, by its standing.
fn joined(top: Top, s: Standing) -> Top
    ensures { (p : Plan) (a : Assignment) (last : ℕ → ℕ) (x : ℕ) (xs : List ℕ) → Ranks p a last xs top → Stands p a last x s
        → Ranks p a last (x ∷ xs) result }
{
    let latest = s.last.max(top.latest);
    let Some(first) = top.first else {
        return Top {
            first: Some(s),
            latest,
            ..top
        };
    };
    if !comes_before(first, s) {
        return Top {
            first: Some(s),
            second: Some(first),
            latest,
        };
    }
    match top.second {
        Some(second) if comes_before(second, s) => Top { latest, ..top },
        _ => Top {
            second: Some(s),
            latest,
            ..top
        },
    }
}

// One variable more, by its number. One whose score is below that of the second so far comes behind both: of it only the last flip counts.
fn ranked_too(footing: &Footing<'_>, marks: &[u8], top: Top, x: u32) -> Top
    requires { HasPlaces footing.now marks.now x }
    ensures { (xs : List ℕ) → Ranks (plan_on footing.now) (bits_on footing.now) (stamp_in marks.now) xs top
        → Ranks (plan_on footing.now) (bits_on footing.now) (stamp_in marks.now) (x ∷ xs) result }
{
    let run = Run::of(footing, marks, x as usize);
    let last = last_flip(marks, x);
    let least = top.second.map_or(0, |s| s.score);
    match score_of(&run, least) {
        Some(score) => joined(
            top,
            Standing {
                score,
                last,
                variable: x,
            },
        ),
        None => Top {
            latest: last.max(top.latest),
            ..top
        },
    }
}

// "rank them": the variables of a clause that may be chosen, from the last of its list to the first, so that each comes before those that are ranked already.
// A countdown between two ends that are written out is a loop of two numbers to the check; of `list.rev()` the proof would have to be told what each `next`
// gives.
pub fn rank_clause(choice: &Choice<'_>, marks: &[u8]) -> Top
    requires { Rankable choice.now marks.now }
    ensures { Ranks (plan choice.now) (bits choice.now) (stamp_in marks.now) (variables choice.now) result }
{
    let list = list_of(&choice.footing.plan(), marks, choice.clause);
    let mut top = Top::NONE;
    for i in (list.start..list.end).rev() {
        top = ranked_too(&choice.footing, marks, top, word(marks, i));
    }
    top
}
