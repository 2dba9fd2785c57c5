// Fields of RFC 4180's grammar, read in place: what a field holds and where it ends.
#![tactic(auto)]

pub mod field;
pub mod value;
