// What becomes of a plan file's rules and clauses once locked values are put in (document 02, T-12). The file is only read.
// File and map go side by side: who rewrites the file lends it anew for each of these calls, so that a struct of the two would be made at each.
// A map has a word for each variable, at the index of its number: its new number, or one of the two codes of a locked variable.
#![tactic(auto)]

pub mod bounds;
pub mod clause;
mod decoding;
pub mod map;
pub mod rule;
pub mod sums;
pub mod terms;

// A locked variable's code, by its value; the greatest number is 512. A map is words and no `Code`s, since the section of the tables that it is made from lays
// each lock as a word, which is then turned into a code where it stands: `Code`s would need a second buffer beside the words.
pub const OFF: u32 = 513;

pub const ON: u32 = 514;

// The bytes of a map: a word for each number from 0 to 512.
pub const MAP: usize = 4 * 513;
