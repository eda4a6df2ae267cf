// The outline's numbers, for all crates of code: its limits and sizes, and its refusals.
#![tactic(auto)]

pub mod limits; // limits.rt: beside specs/Limits.antt, which has the same names
pub mod refusals; // refusals.rt: specs/Refusals.antt has the numbers
