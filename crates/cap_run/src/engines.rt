//! The engines, one for each command. Most read the messages of a stream and write a text or a copy
//! for each. The others copy the words of a source.

pub mod canon;
pub(crate) mod canonical_object;
pub mod check;
pub(crate) mod differing;
pub mod dump;
pub mod exclusive;
pub mod explain;
pub mod explained;
pub mod filter;
pub mod get;
pub mod hash;
pub mod json;
pub(crate) mod passing;
pub(crate) mod reading;
pub mod segments;
pub(crate) mod sentence;
pub(crate) mod sifting;
pub mod single;
pub(crate) mod stream;
pub mod transcode;
pub mod vet;
pub(crate) mod vetting;
pub(crate) mod whole;
