// The columns of lib0 that hold numbers: a module each, with its by-value place and `next`; `once` has their writers. A column is a prefix of the
// update that it stands in, read from a place on, so that places are the update's own. The text column is the crate `string`.
#![tactic(auto)]

pub mod byte;
pub mod difference;
pub mod number;
