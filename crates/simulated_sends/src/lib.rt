// A sender's message of a round of the simulated exchange, a call of the exchange, and to whom it goes.
#![tactic(auto)]

pub mod lists;
