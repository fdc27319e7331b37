// Lists of masks as bytes, and their reader; tables read with their cores.
#![tactic(auto)]

pub mod files;
pub mod reading;
