//! Framed messages: the ways to hold one, reading them from a source of words or before other bytes,
//! and writing them to a sink.
#![tactic(auto)]

mod byte_message;
mod byte_reader;
mod fault;
mod framed;
mod front;
mod lengths;
mod message;
mod outline;
mod outline_reader;
mod reader;
mod segment_tables;
mod segments;
mod skipping;
mod table;
mod writer;

pub use byte_message::{ByteMessage, ByteView, words_at};
pub use byte_reader::{read_byte_message, read_into, read_noting};
pub use fault::{FrameFault, FrontFault, MOST_WORDS, SizeLimit};
pub use framed::Framed;
pub use front::front_of;
pub use lengths::{message_words, words_before};
pub use message::{OneSegment, WordMessage};
pub use outline::Outline;
pub use outline_reader::{read_outline, read_outline_noting};
pub use reader::read_message;
pub use segment_tables::SegmentTables;
pub use segments::Segments;
pub use table::TableSums;
pub use writer::{TABLE_BYTES, table_into, write_message};
