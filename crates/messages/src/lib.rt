// The messages of an exchange read from bytes: the fields of a message.
#![tactic(auto)]

pub mod reading;
