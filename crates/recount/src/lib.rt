// Opening without its checks: the tallies counted anew.
// The tallies stand beside what is read, with their size in each clause. A struct of them and the tables would be read while a part of it is lent for writing,
// which the proof of borrows does not cover, and C lends them as long as it likes, so that no array has their type.
// A rule and a clause are told by their index, whose bound each clause asks: a struct of an index and its bound would be opened again in each function, where
// the index alone finds the words.
#![tactic(auto)]

pub mod clause;
pub mod lent;
pub mod open;
pub mod recount;
pub mod tables;
