//! Readers and writers for tests: each gives or takes few bytes a call, counts its calls, and may fail in one.
#![tactic(auto)]

mod devices;

pub use devices::{Fault, HONEST, PIECES, READ_FAULTS, Reader, WRITE_FAULTS, Writer};
