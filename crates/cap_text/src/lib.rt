//! The texts that the program writes: about each message of a stream, and about the error that ended
//! a run.
//!
//! A text is put together in a buffer of a fixed size, a page, so that no text allocates. The errors
//! of a run are here, since each has a line.
#![tactic(auto)]

mod breaks;
mod difference;
mod explained;
mod fault;
mod fault_lines;
mod get;
mod guess;
mod hash;
mod json;
mod node;
mod page;
mod segments;
mod tree;
mod verdict;

pub use breaks::write_explained_fault;
pub use difference::{
    write_canonical_json, write_difference, write_filtered_end, write_object_end,
};
pub use explained::{write_explained_json, write_explained_overlap_json, write_filtered_json};
pub use fault::{Cause, CopyFault, ExplainedFault, RunFault, SingleFault, StreamBreak};
pub use fault_lines::{write_copy_fault, write_fault, write_single_fault};
pub use get::write_node;
pub use guess::write_guessed_fault;
pub use hash::{write_digest, write_hash, write_no_form};
pub use json::{
    write_accepted_json, write_check_json, write_hash_json, write_no_form_json, write_overlap_json,
    write_refused_json,
};
pub use page::Page;
pub use segments::write_segments;
pub use tree::{dump, write_tree};
pub use verdict::{write_accepted, write_check, write_filtered, write_overlap, write_refused};
