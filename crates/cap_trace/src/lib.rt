//! The path of a pointer word of a message, by the word's number in preorder; the last cycle on it; and the
//! first pointer that uses a word that it uses.
#![tactic(auto)]

mod below;
mod branch;
mod earlier;
mod naming;
mod returning;
mod seeking;
mod slot;
mod tracing;
mod used_words;

pub use earlier::{EarlierPointer, earlier_pointer};
pub use naming::NamedPath;
pub use returning::{Cycle, last_cycle};
pub use slot::StepSlot;
pub use tracing::path_of_pointer;
