// The choice of a variable by Novelty+ (T-09). The marks, the list of numbers and how many of it are used stay parameters of their own, as in `skc`.
#![tactic(auto)]

ghost use Rattle.std.specs.Prelude.{◌≡◌, List, ℕ, ◌/◌, ◌≤◌, T, length, IsSome};
ghost use Rattle.plpb.specs.Lists.{all};
ghost use Rattle.plpb.specs.Plan.{Plan, Assignment, is_variable};
ghost use Rattle.plpb.specs.Settings.{Settings as Set};
ghost use Rattle.plpb.specs.Novelty.{ranked};
ghost use Rattle.plpb.specs.Choice.{ranked_choice, novelty_choice};
ghost use Rattle.numbers.specs.Numbers.{numbers_of};
ghost use Rattle.settings.specs.Settings.{settings_of};
ghost use Rattle.stamps.specs.Stamps.{stamp_in};
ghost use Rattle.picks.specs.Choice.{plan, bits, variables};
ghost use Rattle.ranking.specs.Ranking.{Ranks};
ghost use Rattle.picking.specs.Outcome.{Chooses};
ghost use Rattle.skc.specs.Choosing.{Drawable};
ghost use Rattle.novelty.specs.Noise.{asks_noise};

use numbers::{Drawn, Short, pick};
use picking::{Chosen, is_below};
use picks::Choice;
use ranking::{Standing, Top, rank_clause};
use settings::Settings;
use skc::choose_any;

// Whether the first is the one most recently flipped among all, whose last flip has the number `latest`: 0 where none was flipped.
fn asks_noise(first: Standing, latest: u32) -> bool
    ensures { result ≡ asks_noise first latest }
{
    let flipped = latest > 0;
    flipped && first.last == latest
}

// "If the first is not the one most recently flipped in this try among them, or it is alone, flip it. Otherwise a number under noise takes the second,
// else the first."
fn choose_ranked(top: Top, numbers: &[u8], used: usize, noise: u32) -> Result<Chosen, Short>
    requires { (used ≤ length numbers.now / 4) × IsSome top.first }
    ensures { (s : Set) (p : Plan) (a : Assignment) (last : ℕ → ℕ) (xs : List ℕ) → noise ≡ s.noise → Ranks p a last xs top
        → T (all (is_variable p) xs)
        → Chooses (ranked_choice s last xs (ranked p a last xs)) (numbers_of numbers.now) used p.variables result }
{
    let first = top.first.unwrap();
    match top.second {
        Some(second) if asks_noise(first, top.latest) => {
            let drawn = pick(numbers, used, 1000)?;
            let second_taken = is_below(drawn.value, noise);
            let taken = if second_taken { second } else { first };
            Ok(Drawn {
                value: taken.variable,
                used: drawn.used,
            })
        }
        _ => Ok(Drawn {
            value: first.variable,
            used,
        }),
    }
}

// "One number under the walk chance, per 1,000, leads to a pick among the clause's unlocked variables. Otherwise rank them"
pub fn choose_novelty(
    choice: &Choice<'_>,
    marks: &[u8],
    numbers: &[u8],
    used: usize,
    s: Settings,
) -> Result<Chosen, Short>
    requires { Drawable choice.now marks.now numbers.now used }
    ensures { Chooses
        (novelty_choice (settings_of s) (plan choice.now) (bits choice.now) (stamp_in marks.now) (variables choice.now))
        (numbers_of numbers.now) used (plan choice.now).variables result }
{
    let drawn = pick(numbers, used, 1000)?;
    if is_below(drawn.value, s.chance) {
        return choose_any(choice, marks, numbers, drawn.used);
    }
    choose_ranked(rank_clause(choice, marks), numbers, drawn.used, s.noise)
}
