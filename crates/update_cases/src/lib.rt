// Operation 14 of the case program, updates read into tables; and what the lines of other operations share with it.
#![tactic(auto)]

pub mod rows;
pub mod tables;
