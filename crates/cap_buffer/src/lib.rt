//! A text in a buffer of a fixed size, so that no text allocates. Lines and explanations are put
//! together in one.
#![tactic(auto)]

mod path;
mod text_buffer;

pub use path::{STEP, STEPS};
pub use text_buffer::{DIGITS, FEW_DIGITS, HASH, TextBuffer};
