// The first decisions of a simulated exchange: the openings, then each round as a call of `simulated_rounds`, with the
// states of the drives in an array as there. An opening is the state that `open` gives, for a core that is worked out
// once.
#![tactic(auto)]

pub mod noting;
mod opened;
pub mod running;
