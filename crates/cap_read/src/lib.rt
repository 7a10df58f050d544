//! What the calls of a reader promise together, on any message.
#![tactic(auto)]

mod place_bytes;
mod reading;

pub use place_bytes::read_bytes;
pub use reading::{Reading, read};
