// Lists of sets of drives put in order, by mask or in the order of cores, and copied.
#![tactic(auto)]

pub mod slices;
pub mod sorting;

// Counts that only choose an order stop here.
pub const MOST_COUNT: u64 = 0xffff_ffff;
