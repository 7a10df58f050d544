//! The explanation of a refusal: the words that a pointer leads through, with their fields, where it
//! leads, and the reason as a sentence.
#![tactic(auto)]

mod charge;
mod copied;
mod copy_lines;
mod cycle;
mod earlier;
mod explaining;
mod explanation;
mod forms;
mod landing;
mod laws;
mod lines;
mod numbers;
mod path;
mod rows;
mod sentences;
mod target;
mod words;

pub use cycle::fault_cycle;
pub use earlier::explain_earlier;
pub use explaining::{explain, explain_difference, explain_overlap, explain_overlap_alone};
pub use explanation::Explanation;
pub use laws::{reason_is_true, target_is_where_the_pointer_leads};
pub use numbers::{MessageStart, Numbers, numbers_of};
pub use sentences::difference_sentence;
pub use words::frame_words;
