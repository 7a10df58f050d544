//! The text of a path, and its steps.
#![tactic(auto)]

mod parsing;
mod reading;
mod steps;

pub use cap_spec::Step;
pub use parsing::{PathFault, parse_path};
pub use steps::{PathSteps, read_path};
