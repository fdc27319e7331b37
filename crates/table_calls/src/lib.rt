// The library's calls about tables for programs in C: a slice passes as a pointer and a length, and a reply comes back
// by value, as a struct of numbers whose `refusal` is 0 where the call is accepted. Beside a refusal the rest of a
// reply is 0, and lent memory is as it was.
#![tactic(auto)]

mod calls;
mod reading;
