// What the table program prints, written into a lent buffer.
#![tactic(auto)]

pub mod programs;
mod table_text;
