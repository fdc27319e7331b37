// Calls about survivor tables given as n and sets: the chosen core, the first set missed, and the way back.
#![tactic(auto)]

pub mod calls;
