// The search for the minimal hitting sets of a list of sets of drives, in one order of the sets and with limited fuel.
#![tactic(auto)]

mod marks;
pub mod search;
