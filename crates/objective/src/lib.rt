// What the tightening writes of the objective into the tables: the added last clause O ≤ m.
#![tactic(auto)]

pub mod added;
