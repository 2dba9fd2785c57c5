// Opening, flip and counts: each tests what it is lent before it changes a byte.
#![tactic(auto)]

pub mod counts;
pub mod flip;
pub mod open;
pub mod tests;
