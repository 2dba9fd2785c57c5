// The choice of a variable of a clause (Algorithm 2, SKC) over the clause's list: among those whose flip breaks nothing, else by the noise among the least
// counts or among all. Of the marks only hints and picks change. The marks come by themselves, since one part of them is read while another is written, which
// a struct with them in it would not let be proved. The list of numbers and how many of it are used stay two parameters: the list is the caller's, and each
// choice answers how many are used then.
#![tactic(auto)]

ghost use Rattle.std.specs.Prelude.{◌≡◌};
ghost use Rattle.plpb.specs.Choice.{pick_from, least_break, with_break, noisy_choice, skc_choice};
ghost use Rattle.numbers.specs.Numbers.{numbers_of};
ghost use Rattle.settings.specs.Settings.{settings_of};
ghost use Rattle.picks.specs.Picks.{Noted};
ghost use Rattle.picks.specs.Choice.{plan, bits, variables};
ghost use Rattle.picking.specs.Outcome.{Chooses};
ghost use Rattle.skc.specs.Choosing.{try_on, Choosable, Drawable};

use columns::PICKS;
use least::least_of;
use numbers::{Short, pick};
use picking::{Chosen, is_below, pick_listed};
use picks::{Choice, free_of, list_of};
use settings::Settings;

// "else to a pick among all"
pub fn choose_any(
    choice: &Choice<'_>,
    marks: &[u8],
    numbers: &[u8],
    used: usize,
) -> Result<Chosen, Short>
    requires { Drawable choice.now marks.now numbers.now used }
    ensures { Chooses (pick_from 0 (variables choice.now)) (numbers_of numbers.now) used (plan choice.now).variables result }
{
    let list = list_of(&choice.footing.plan(), marks, choice.clause);
    pick_listed(numbers, used, marks, list.start, list.len())
}

// "a pick among the least break counts"
fn choose_least(
    choice: &Choice<'_>,
    marks: &mut [u8],
    numbers: &[u8],
    used: usize,
) -> Result<Chosen, Short>
    requires { Choosable choice.now marks.old numbers.now used }
    ensures { Chooses
        (pick_from 0
        (with_break (plan choice.now) (bits choice.now)
        (least_break (plan choice.now) (bits choice.now) (variables choice.now)) (variables choice.now)))
        (numbers_of numbers.now) used (plan choice.now).variables result
        × Noted (plan choice.now) marks.old marks.new }
{
    let few = least_of(choice, marks);
    pick_listed(numbers, used, marks, PICKS, few)
}

// "Otherwise a number r with r mod 1000 < noise leads to a pick among the least break counts, else to a pick among all."
fn choose_noisy(
    choice: &Choice<'_>,
    marks: &mut [u8],
    numbers: &[u8],
    used: usize,
    s: Settings,
) -> Result<Chosen, Short>
    requires { Choosable choice.now marks.old numbers.now used }
    ensures { Chooses
        (noisy_choice (settings_of s) (plan choice.now) (try_on choice.now.footing) (variables choice.now))
        (numbers_of numbers.now) used (plan choice.now).variables result
        × Noted (plan choice.now) marks.old marks.new }
{
    let drawn = pick(numbers, used, 1000)?;
    if is_below(drawn.value, s.noise) {
        choose_least(choice, marks, numbers, drawn.used)
    } else {
        choose_any(choice, marks, numbers, drawn.used)
    }
}

// "if any has break count 0, pick among those"
pub fn choose(
    choice: &Choice<'_>,
    marks: &mut [u8],
    numbers: &[u8],
    used: usize,
    s: Settings,
) -> Result<Chosen, Short>
    requires { Choosable choice.now marks.old numbers.now used }
    ensures { Chooses
        (skc_choice (settings_of s) (plan choice.now) (try_on choice.now.footing) (variables choice.now))
        (numbers_of numbers.now) used (plan choice.now).variables result
        × Noted (plan choice.now) marks.old marks.new }
{
    let free = free_of(choice, marks);
    if 0 < free {
        return pick_listed(numbers, used, marks, PICKS, free);
    }
    choose_noisy(choice, marks, numbers, used, s)
}
