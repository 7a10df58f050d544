//! Packed words: the source that unpacks them, the sink that packs them, packing between buffers, and
//! kernels that take a vector of words or bytes at a time.
#![tactic(auto)]

mod buffered;
mod buffers;
mod encoding;
mod group;
mod head;
mod in_parts;
pub mod lanes;
mod packer;
mod pieces;
mod reads;
mod unpacker;

pub use buffers::pack_into;
pub use head::{Head, front_head, head_len};
pub use in_parts::{PART_BYTES, PackedPart, pack_part};
pub use packer::Packer;
pub use unpacker::Unpacker;
