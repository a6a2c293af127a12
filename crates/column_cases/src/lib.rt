// Operations 1 to 12 of the case program: numbers and columns, read and written.
#![tactic(auto)]

pub mod columns_of;
pub mod lent;
pub mod numbers_of;
