// The choice that the settings name, SKC or Novelty+, over the clause's list.
#![tactic(auto)]

ghost use Rattle.plpb.specs.Choice.{choice_by};
ghost use Rattle.numbers.specs.Numbers.{numbers_of};
ghost use Rattle.settings.specs.Settings.{heuristic_of, settings_of};
ghost use Rattle.stamps.specs.Stamps.{stamp_in};
ghost use Rattle.effects.specs.Footing.{plan_on};
ghost use Rattle.picks.specs.Picks.{of_clause, Noted};
ghost use Rattle.picking.specs.Outcome.{Chooses};
ghost use Rattle.skc.specs.Choosing.{try_on, ToChoose};

use effects::Footing;
use novelty::choose_novelty;
use numbers::Short;
use picking::Chosen;
use picks::Choice;
use settings::Settings;
use skc::choose;

// Of the marks only hints and picks change. The heuristic stays the number that the C interface takes. The number is asked here alone and at once: an enum of
// the two would be made of it by a match, only to be matched again. The clause comes as a number, which the walk has picked: here it becomes the struct that
// each choice takes. The numbers and how many of them are used come as two, as in `numbers`.
pub fn choose_in(
    footing: &Footing<'_>,
    marks: &mut [u8],
    c: usize,
    numbers: &[u8],
    used: usize,
    s: Settings,
) -> Result<Chosen, Short>
    requires { ToChoose footing.now marks.old c numbers.now used }
    ensures { Chooses
        (choice_by (heuristic_of s.heuristic) (settings_of s) (plan_on footing.now) (try_on footing.now) (stamp_in marks.old)
        (of_clause footing.now c)) (numbers_of numbers.now) used (plan_on footing.now).variables result
        × Noted (plan_on footing.now) marks.old marks.new }
{
    let choice = Choice {
        footing: *footing,
        clause: c,
    };
    if s.heuristic == 0 {
        return choose(&choice, marks, numbers, used, s);
    }
    choose_novelty(&choice, marks, numbers, used, s)
}
