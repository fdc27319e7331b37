// The messages of an exchange written as bytes, and how long they are.
#![tactic(auto)]

use drive_sets::{MAX_DRIVES, PATTERN_BYTES};

// How long a DW is.
pub const DECIDE_BYTES: usize = 4 + PATTERN_BYTES;

// No message is longer: 12 bytes and 64 numbers.
pub const LONGEST: usize = 12 + PATTERN_BYTES * MAX_DRIVES as usize;

pub mod writing;
