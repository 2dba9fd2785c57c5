// Capped counts in code: what a flip spoils, mends and leaves, and the bounds that the tightening sets; proved against the
// definitions of plpb.
#![tactic(auto)]

pub mod binomial;
pub mod bound;
pub mod count;
pub mod pascal;
pub mod shares;
pub mod tightening;
