// What the calls about tables put into lent memory, and their replies as structs of numbers: lists of sets, and a table
// that was read. Beside a refusal the rest of a reply is 0, and lent memory is as it was.
#![tactic(auto)]

pub mod lists;
pub mod reading;
