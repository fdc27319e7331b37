// The calls about runs for programs in C, as in `table_calls`: the simulated exchange, and the listings.
#![tactic(auto)]

mod listings;
mod simulating;
