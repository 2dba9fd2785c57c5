// A clause of which a variable is to be chosen, in what the walk stands on.
ghost use Rattle.std.specs.Prelude.{◌<◌, length};
ghost use Rattle.effects.specs.Footing.{plan_on};

use effects::Footing;

// The marks are not in it: a choice writes picks and hints to them while it reads the clause's list there.
#[derive(Clone, Copy)]
pub struct Choice<'a> {
    pub footing: Footing<'a>,
    pub clause: usize,
    pub ghost there: { clause < length (plan_on footing).clauses },
}
