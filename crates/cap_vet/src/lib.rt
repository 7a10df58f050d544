//! Limits and demands, vetted, strict and exclusive messages, their nodes and views, and getters for
//! messages that were not vetted.
#![tactic(auto)]

mod demanded_vetting;
mod exclusiveness;
mod nodes;
mod strictness;
mod vetting;

pub use cap_ptr::Place;
pub use cap_spec::{Kind, Lax, Reason, Refusal, Step, StrictRefusal};
pub use cap_walk::{
    Demands, FirstTurn, Limits, Report, Stopped, Turn, charge_up_to, limits_under, nulls,
};
pub use demanded_vetting::vet_with;
pub use exclusiveness::exclusive::Exclusive;
pub use exclusiveness::exclusive_buffer::ExclusiveFault;
pub use exclusiveness::exclusive_vetting::{ExclusiveRefusal, vet_exclusive};
pub use exclusiveness::marks::marks_for;
pub use nodes::budget::Budget;
pub use nodes::charged::get_charged;
pub use nodes::getting::get_with;
pub use nodes::node::Node;
pub use nodes::path_start::PathStart;
pub use nodes::step_source::StepSource;
pub use nodes::struct_elements::StructElements;
pub use nodes::vetted::Vetted;
pub use nodes::view::View;
pub use strictness::strict::Strict;
pub use strictness::strict_vetting::vet_strict;
pub use vetting::{vet, vet_with_turn};
