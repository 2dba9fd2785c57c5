// The places of a variable's run in one clause: a group. A clause of several rules breaks where no rule outside its group holds, those of the group all fail
// after the flip and one of them is spoiled.
#![tactic(auto)]

mod group;

ghost use Rattle.std.specs.Prelude.{◌≡◌, ◌≤◌, ltb};
ghost use Rattle.plpb.specs.Lists.{any, all, count};
ghost use Rattle.plpb.specs.Plan.{rule_holds};
ghost use Rattle.plpb.specs.Equations.{clause_break};
ghost use Rattle.order.specs.Breaks.{spoils_part, false_after};
ghost use Rattle.order.specs.Blocks.{rules_along};
ghost use Rattle.effects.specs.Run.{Inside, plan as run_plan, bits as run_bits};
ghost use Rattle.groups.specs.Run.{end_of_group};
ghost use Rattle.groups.specs.Group.{bits, clause, rules};

pub use effects::Run;
use format::HOLDING;
pub use group::Group;
use words::index;

// Where the group ends that begins at place k.
pub fn group_end(run: &Run<'_, '_>, k: usize) -> usize
    requires { Inside run.now k }
    ensures { result ≡ end_of_group run.now k }
{
    let c = run.clause_at(k);
    (k..run.end)
        .find(|&j| run.clause_at(j) != c)
        .unwrap_or(run.end)
}

// Whether the flip spoils one of the rules at the places from k on, below j: a group's, or any others of the run.
pub fn any_spoils(run: &Run<'_, '_>, k: usize, j: usize) -> bool
    requires { (run.now.first ≤ k) × (j ≤ run.now.end) }
    ensures { result ≡ any (spoils_part (run_bits run.now) run.now.x) (rules_along (run_plan run.now) k j) }
{
    (k..j).any(|i| run.spoils_at(i))
}

impl Group<'_> {
    // How many of the group's rules hold.
    fn held(&self) -> usize
        ensures { result ≡ count (rule_holds (bits self.now)) (rules self.now) }
    {
        (self.first..self.end)
            .filter(|&i| self.run.holds_at(i))
            .count()
    }

    // Whether all of the group's rules fail after the flip.
    fn all_fail(&self) -> bool
        ensures { result ≡ all (false_after (bits self.now) self.now.run.now.x) (rules self.now) }
    {
        (self.first..self.end).all(|i| self.run.fails_at(i))
    }

    // Whether the flip breaks the clause. How many of its rules hold is known, so it is asked first whether the group has room for them; where none holds,
    // none of the group does, and none is counted. It is put into its callers: as a call it is handed the group and the run by their places in memory, and
    // each variable's run is then written there first.
    #[inline(always)]
    pub fn breaks(&self) -> bool
        ensures { result ≡ ltb 0 (clause_break (bits self.now) self.now.run.now.x (clause self.now)) }
    {
        let run = self.run;
        let holding = index(run.footing.tallies, HOLDING + self.clause);
        if self.end - self.first < holding {
            return false;
        }
        if !any_spoils(run, self.first, self.end) {
            return false;
        }
        if 0 < holding && holding != self.held() {
            return false;
        }
        self.all_fail()
    }
}
