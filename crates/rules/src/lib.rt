// One rule of the tables under an assignment: its sums, its sizes A and B, whether it holds, and what turning a variable over does to it.
// Tables, terms and assignment come one by one: a rule may stand at any word of any table here, so a struct of them would say nothing; the crates above have
// one with the facts.
#![tactic(auto)]

pub mod entry;
pub mod place;
pub mod size;
pub mod state;
pub mod sums;
pub mod term;
