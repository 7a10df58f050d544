//! Why an accepted message isn't its own canonical copy: the first pointer at which they differ, and the
//! reason.
#![tactic(auto)]

mod difference;
mod elements;
mod lists;
mod nulls;
mod objects;
mod pointers;
mod reading;
mod reason;
mod structs;

pub use difference::{Difference, first_difference};
pub use reason::DifferenceReason;
