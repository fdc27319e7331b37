// The simulated exchange as a call: what the canonical run of a scenario gives, from the first decisions of
// `simulated_decisions`.
#![tactic(auto)]

mod checking;
pub mod simulating;
