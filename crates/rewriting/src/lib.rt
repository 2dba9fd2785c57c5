// A plan file rewritten in its own buffer, without its locked variables. What is written never reaches past what was read.
// The file to write comes by itself, beside the map: it is read and written by turns, which a struct that holds it would not let be proved.
#![tactic(auto)]

pub mod rules;
pub mod terms;
