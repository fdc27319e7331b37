// All minimal hitting sets of a list of sets of drives, in a lent slice: the engine of the cores and of the way back.
#![tactic(auto)]

pub mod finding;
