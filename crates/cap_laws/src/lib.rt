//! Theorems about the definitions alone. Each is the contract of a public function with an empty
//! body, named for what it says.
#![tactic(auto)]

pub mod canonical;
pub mod disjoint;
pub mod following;
pub mod framing;
pub mod packing;
pub mod paths;
pub mod plain;
pub mod strict;
pub mod trees;
pub mod unamplified;
pub mod verdicts;
