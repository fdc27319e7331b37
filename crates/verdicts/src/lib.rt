// The verdict on k as the answer of a call.
#![tactic(auto)]

pub mod calls;
