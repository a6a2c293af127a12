// What a diff keeps: a plan of its sections, highest client first, and a cursor that goes through the rows of the block table by the plan.
#![tactic(auto)]

pub mod cursor;
pub mod plan;
