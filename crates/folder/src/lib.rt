// What the program reads from its folder (document 01, "The program and its two lines").
#![tactic(auto)]

pub mod files;
