// The places of a variable's run in one clause.
ghost use Rattle.std.specs.Prelude.{◌≡◌};
ghost use Rattle.effects.specs.Run.{place};
ghost use Rattle.groups.specs.Run.{IsGroup, end_of_group, Begins};
ghost use Rattle.groups.specs.Facts.{group_prop};

use crate::group_end;
use effects::Run;

// The places from the first on, below the end, are those where the clause names the variable of the run.
// First and end are two numbers: a `Range` is not `Copy`, so that each chain over the places would clone it.
#[derive(Clone, Copy)]
pub struct Group<'a> {
    pub run: &'a Run<'a, 'a>,
    pub clause: usize,
    pub first: usize,
    pub end: usize,
    pub ghost whole: { IsGroup run.now clause first end } by { group_prop },
}

impl<'a> Group<'a> {
    // The group that begins at place k.
    pub fn at(run: &'a Run<'a, 'a>, k: usize) -> Group<'a>
        requires { Begins run.now k }
        ensures { (result.run.now ≡ run.now) × (result.clause ≡ (place run.now k).clause) × (result.first ≡ k)
            × (result.end ≡ end_of_group run.now k) }
    {
        Group {
            run,
            clause: run.clause_at(k),
            first: k,
            end: group_end(run, k),
        }
    }
}
