// What the run program prints, written into a lent buffer.
#![tactic(auto)]

pub mod programs;
mod run_text;
