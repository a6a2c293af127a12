// Operations 13, 15 and 18 of the case program: state vectors, contents, listings.
#![tactic(auto)]

pub mod listings;
pub mod parts;
pub mod vectors;
