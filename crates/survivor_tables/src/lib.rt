// Survivor tables: what they, their normal form, their cores and the way back are, with their laws, in specs/. The code
// is the limits, lists of masks in fixed memory, the tests of n and of one set or fault group, and the first set that
// some drives miss.
#![tactic(auto)]

pub mod frames;
pub mod lists;
pub mod missed;

// The most sets of a table, and the most cores.
pub const MAX_SETS: usize = 128;

pub const MAX_CORES: usize = 1024;
