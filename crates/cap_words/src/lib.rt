//! Bytes and words: the fields of a word, the ends that bytes come in and go out by, and the
//! sources and sinks of words that use them.
#![tactic(auto)]

mod buffered_in;
mod byte_io;
mod from_read;
mod from_write;
mod plain_sink;
mod plain_words;
mod sinks;
mod slice_in;
mod sources;
mod transfer;
mod vec_out;
mod word;

pub use buffered_in::BufferedIn;
pub use byte_io::{ByteIn, ByteOut, InFault, OutFault, Phase};
pub use from_read::FromRead;
pub use from_write::FromWrite;
pub use plain_sink::PlainSink;
pub use plain_words::PlainWords;
pub use sinks::{SinkFault, WordSink};
pub use slice_in::SliceIn;
pub use sources::{SourceFault, WordSource};
pub use transfer::{Counted, Filled, fill, write_all};
pub use vec_out::VecOut;
pub use word::{bits, bytes_of, signed_offset, word_of};
