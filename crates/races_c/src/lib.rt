// The C interface of the split alone. include/races.h declares it. It promises what the function that it calls promises.
#![tactic(auto)]

ghost use Rattle.std.specs.Prelude.{◌≡◌};
ghost use Rattle.division.specs.Split.{refusal_after, parts_after};
ghost use Rattle.races.specs.Races.{stakes_of, placed};

use races::Race;

#[unsafe(no_mangle)]
pub extern "C" fn planner_share(races: &mut [Race], numbers: usize) -> u32
    ensures { (result ≡ refusal_after 0 (stakes_of races.old))
        × (races.new ≡ placed (parts_after 0 numbers (stakes_of races.old)) races.old) }
{
    races::planner_share(races, numbers)
}
