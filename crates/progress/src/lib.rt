// How far a search has come, what a call with the added clause comes to, and how a search ends.
#![tactic(auto)]

ghost use Rattle.std.specs.Prelude.{◌≡◌, ◌++◌, ◌≤◌, ◌<◌, nat_abs, length, take, drop};
ghost use Rattle.plpb.specs.Search.{bound_in};
ghost use Rattle.words.specs.Words.{word_at};
ghost use Rattle.format.specs.Assignment.{bits_of};
ghost use Rattle.costs.specs.Sums.{Summable, cost_in};
ghost use Rattle.settings.specs.Settings.{mode_of};
ghost use Rattle.progress.specs.Bounds.{ending_of, ending_number, StoppedAt};

use costs::cost;
use counting::tightening::{lbs_bound, linear_bound};
use moves::Stop;
use settings::Tightening;
use tries::Spent;
use words::{copy, index};

// How far a search has come after a find: what it costs, how many finds were made, and what is spent. That it tracks the numbers and the assignment stands in
// the contracts, since both are the caller's, as with `Spent`.
#[derive(Clone, Copy, Debug, PartialEq, Eq)]
pub struct Progress {
    pub cost: i64,
    pub finds: usize,
    pub spent: Spent,
}

// Why a tightening has no further find, with how far the search has come: it fails where a call with the added clause does.
pub type Halt = Stop<Progress>;

// How a search ends, by the number that the answer gives it.
#[derive(Clone, Copy, Debug, PartialEq, Eq)]
pub enum Ending {
    Floor = 1,
    Ended = 2,
    None = 3,
    ShortFound = 4,
    ShortNone = 5,
}

// Its number, as the C interface hands it out.
impl From<Ending> for u32 {
    ghost from_gives = { λ ending n. n ≡ ending_number (ending_of ending) };

    fn from(ending: Ending) -> u32 {
        ending as u32
    }
}

// What a search answers. Without a find cost and finds are 0, as the answer to C has them; the ending says which.
#[derive(Clone, Copy, Debug, PartialEq, Eq)]
pub struct Searched {
    pub ending: Ending,
    pub progress: Progress,
}

// Copies a find out, and answers what it costs.
pub fn keep_find(tables: &[u8], found: &[u8], assignment: &mut [u8]) -> i64
    requires { Summable tables.now × (word_at tables.now 0 ≤ length found.now) × (word_at tables.now 0 ≤ length assignment.old) }
    ensures { (result ≡ cost_in tables.now (bits_of (word_at tables.now 0) found.now))
        × (assignment.new
        ≡ take (word_at tables.now 0) found.now ++ drop (word_at tables.now 0) assignment.old) }
{
    let n = index(tables, 0);
    copy(&found[..n], assignment);
    cost(tables, found)
}

// How a tightening ends where nothing follows its failure.
pub fn stopped(end: Result<Progress, Halt>) -> Searched
    ensures { StoppedAt end result }
{
    match end {
        Ok(progress) => Searched {
            ending: Ending::Floor,
            progress,
        },
        Err(Stop::Failed(progress)) => Searched {
            ending: Ending::Ended,
            progress,
        },
        Err(Stop::Short(progress)) => Searched {
            ending: Ending::ShortFound,
            progress,
        },
    }
}

// The bound that a find of this cost gives the next call. The mode stays any number in the public functions that take one, since a type with two values would
// ask more of their callers. It becomes a kind where it is asked, by `Tightening::from`.
pub fn bound_for(mode: u32, least: i64, cost: i64) -> i64
    requires { (nat_abs least < 4294967296) × (nat_abs cost < 4294967296) }
    ensures { result ≡ bound_in (mode_of mode) least cost }
{
    match Tightening::from(mode) {
        Tightening::Linear => linear_bound(cost),
        Tightening::Lbs => lbs_bound(least, cost),
    }
}
