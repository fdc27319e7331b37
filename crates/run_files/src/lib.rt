// Run files: the pattern numbers that the core drives propose and the crashes, read from the bytes after a table.
#![tactic(auto)]

pub mod reading;
