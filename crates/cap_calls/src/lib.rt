//! The calls that C makes, over borrowed bytes. None allocates or keeps anything.
#![tactic(auto)]

mod answer;
mod buffer_sizes;
mod calls;
mod difference_number;
mod extent;
mod found;
mod front;
mod input;
mod laws;
mod limits;
mod node;
mod node_laws;
mod one_slice;
mod over;
mod packed_stream;
mod packing_laws;
mod pointer_laws;
mod reader_limits;
mod report;
mod slices;
mod step;
mod unpacking;

pub use answer::Answer;
pub use buffer_sizes::{canonical_size, frame_size, marks_size, pack_size};
pub use calls::canonical::canonical;
pub use calls::check_canonical::{check_canonical, check_canonical_words};
pub use calls::earlier_pointer::earlier_pointer;
pub use calls::explain::explain;
pub use calls::explain_overlap::{OverlapPointer, explain_overlap};
pub use calls::first_difference::first_difference;
pub use calls::frame::frame;
pub use calls::get::get;
pub use calls::get_range::get_range;
pub use calls::pack::pack;
pub use calls::pack_message::pack_message;
pub use calls::pointer_path::pointer_path;
pub use calls::segments::segments;
pub use calls::unpack::unpack;
pub use calls::unpack_message::unpack_message;
pub use calls::version::version;
pub use calls::vet::vet;
pub use calls::vet_exclusive::vet_exclusive;
pub use calls::vet_segments::vet_segments;
pub use extent::CallExtent;
pub use front::NoFrame;
pub use laws::{
    all_flags_demand_nothing, copies_pass_within_the_same_limits,
    first_differences_have_the_answer_of_the_check, separate_segments_are_vetted_as_framed,
    wider_limits_refuse_no_more,
};
pub use limits::CallLimits;
pub use node::CallNode;
pub use node_laws::{
    nodes_are_inside_their_frame, offsets_are_of_words, vetted_messages_have_their_nodes,
};
pub use packing_laws::{packed_message_unpacks, pieces_unpack_as_one};
pub use pointer_laws::named_pointers_have_their_paths;
pub use reader_limits::{reader_nesting, reader_words};
pub use report::CallReport;
pub use step::CallStep;
pub use unpacking::Unpacking;
