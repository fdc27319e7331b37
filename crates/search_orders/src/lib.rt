// The orders in which the search takes the sets, put in place: any order gives the same minimal hitting sets.
#![tactic(auto)]

pub mod dead_ends;
pub mod levels;
