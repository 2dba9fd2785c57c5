// What the planner sets, the test of it, and what its mode means.
#![tactic(auto)]

ghost use Rattle.std.specs.Prelude.{◌≡◌};
ghost use Rattle.settings.specs.Settings.{choice_refusal, settings_refusal, mode_of, mode_in};

// Noise in thousandths, the tries of a call, the flips of a try, 0 for linear or 1 for LBS, 0 for SKC or 1 for Novelty+, and its walk chance in thousandths.
// The C interface takes any number for mode and heuristic and refuses one out of range, so that both are numbers here.
#[derive(Clone, Copy)]
pub struct Settings {
    pub noise: u32,
    pub tries: u32,
    pub flips: u32,
    pub mode: u32,
    pub heuristic: u32,
    pub chance: u32,
}

// How a search tightens: by the bound next below a find's cost, or by one a third of the way from there down to l(O) until a call fails.
#[derive(Clone, Copy, Debug, PartialEq, Eq)]
pub enum Tightening {
    Linear,
    Lbs,
}

// Any number means one of the two, because a number out of range is refused before a search asks what it means.
impl From<u32> for Tightening {
    ghost from_gives = { λ n t. mode_in t ≡ mode_of n };

    #[tactic(auto, unfolding(crate::specs::Settings::mode_in, crate::specs::Settings::mode_of))]
    fn from(mode: u32) -> Tightening {
        match mode {
            0 => Tightening::Linear,
            _ => Tightening::Lbs,
        }
    }
}

// The chance is judged under either choice. The number of the refusal is one that the C interface gives out.
fn choice_refusal(s: Settings) -> u32
    ensures { result ≡ choice_refusal s }
{
    if 1 < s.heuristic {
        return 15;
    }
    if 1000 < s.chance {
        return 16;
    }
    0
}

// The number of the first setting out of its range, 0 for none: the C interface gives it out as it is. The tests of three crates come one after another
// (`settings`, `lending`, `trials`): an enum of each would hold that of the one below and be opened into the same number at the edge. `calls` has one enum for
// all its tests.
pub fn settings_refusal(s: Settings) -> u32
    ensures { result ≡ settings_refusal s }
{
    if 1000 < s.noise {
        return 11;
    }
    if !(1..=1000).contains(&s.tries) {
        return 12;
    }
    if !(1..=1000000).contains(&s.flips) {
        return 13;
    }
    if 1 < s.mode {
        return 14;
    }
    choice_refusal(s)
}
