// Rows of RFC 4180's grammar, read in place: a row's fields and where the next row begins.
#![tactic(auto)]

pub mod row;
