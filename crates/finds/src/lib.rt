// The answer of a search whose first call found nothing.
#![tactic(auto)]

ghost use Rattle.std.specs.Prelude.{Err};
ghost use Rattle.finds.specs.Whole.{Empty, Unfound};

use moves::Stop;
use progress::{Ending, Progress, Searched};
use tries::{Spent, Unreached};

fn empty(ending: Ending, spent: Spent) -> Searched
    ensures { Unfound ending spent.used spent.flips result }
{
    Searched {
        ending,
        progress: Progress {
            cost: 0,
            finds: 0,
            spent,
        },
    }
}

fn without(why: Unreached) -> Searched
    ensures { Empty (Err why) result }
{
    match why {
        Stop::Failed(spent) => empty(Ending::None, spent),
        Stop::Short(spent) => empty(Ending::ShortNone, spent),
    }
}

// The answer of a first call that found nothing. The whole result comes as the parameter, because the promise of this public function is over it; a reason
// alone would ask more of callers.
pub fn nothing(t: Result<Spent, Unreached>) -> Searched
    ensures { Empty t result }
{
    match t {
        Ok(spent) => empty(Ending::None, spent),
        Err(why) => without(why),
    }
}
