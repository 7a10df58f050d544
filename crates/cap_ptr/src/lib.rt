//! Pointer words: their fields and forms, and what each leads to.
#![tactic(auto)]

mod following;
mod forms;
mod near;
mod place;
mod shapes;

pub use cap_spec::Reason;
pub use following::follow;
pub use forms::{
    Pointer, cap_index, code, data_size, far_segment, kind, list_size, middle, pad, pointer_size,
    two,
};
pub use near::{
    Row, near_row, near_target, struct_list, structs_target, tag_at, words_of_elements,
};
pub use place::Place;
pub use shapes::{
    Followed, Shape, Target, element_bits, extent, is_structs, levels_of_elements, levels_taken,
};
