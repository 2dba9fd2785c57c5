// What many runs are asked for and lent is tested here, once for all of them, in the order of document 02, T-11: 41, 42, 43, then the search's own.
#![tactic(auto)]

ghost use Rattle.std.specs.Prelude.{◌≡◌};
ghost use Rattle.lending.specs.Lent.{lent_in};
ghost use Rattle.trials.specs.Trials.{all_zero, runs_refusal};

use lending::Lent;
use settings::Settings;
use xorwow::Xorwow;

// What many runs are asked for: how each search is set, the state of the generator, how many runs, and how many numbers each takes.
#[derive(Clone, Copy)]
pub struct Trial {
    pub settings: Settings,
    pub state: Xorwow,
    pub runs: u32,
    pub count: u32,
}

// The bytes of the most numbers that a run takes.
pub const NUMBERS: usize = 65536;

// From a register of zeros the generator never leaves it.
fn all_zero(g: Xorwow) -> bool
    ensures { result ≡ all_zero g }
{
    g.x == 0 && g.y == 0 && g.z == 0 && g.w == 0 && g.v == 0
}

// The number of the first refusal, 0 for none: the C interface gives it out as it is. The search's own come last, as `lending` gives them. Why it is no enum
// stands at `settings::settings_refusal`.
pub fn runs_refusal(lent: &Lent<'_>, t: Trial) -> u32
    ensures { result ≡ runs_refusal (lent_in lent.now) t }
{
    if all_zero(t.state) {
        return 41;
    }
    if !(1..=1000).contains(&t.runs) {
        return 42;
    }
    if !(1..=16384).contains(&t.count) {
        return 43;
    }
    if lent.numbers.len() < NUMBERS {
        return 21;
    }
    lent.refusal(t.settings)
}
