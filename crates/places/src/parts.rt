// A place of a term in the plan, as a word of the order has room for it.
ghost use Rattle.std.specs.Prelude.{◌<◌};

// Its clause, its rule, and which of the rule's terms it is.
#[derive(Clone, Copy)]
pub struct Place {
    pub clause: usize,
    pub rule: usize,
    pub term: usize,
    pub ghost small: { (clause < 1_024) × (rule < 2_048) × (term < 512) },
}
