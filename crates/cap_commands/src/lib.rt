//! The commands of the program, with their options and their texts of help.
#![tactic(auto)]

mod commands;
mod help;

pub use commands::{DEFAULT_DEPTH, DEFAULT_WORDS, capvet_command};
