//! The canonical copy of an accepted message, as words, as bytes or into a buffer, its length, and
//! whether a message is its own copy.
#![tactic(auto)]

mod appended;
mod appending;
mod buffer;
mod bytes;
mod checked_vetting;
mod copying;
mod fault;
mod in_order;
mod in_order_lists;
mod length;
mod objects;
mod output;
mod over;
mod run;
mod stack;
mod trimming;
mod values;
mod walk;
mod wholeness;
mod word_bytes;
mod words;

pub use buffer::{canonical_from, canonical_into};
pub use bytes::canonical_bytes;
pub use cap_spec::CanonFault;
pub use checked_vetting::{check_with, is_canonical};
pub use copying::canonical;
pub use fault::BufferFault;
pub use length::canonical_len;
pub use over::canonical_over;
