//! Tests of following, of vetting, of what `read` answers, of canonical copies and of differences from them, by public calls
//! alone.
//! The calls from C are tested as they are built, by `tests/calls/calls.py`.
//!
//! They are outside of the crates that they test, since the gate proves a crate with tests twice.
#![tactic(auto)]

#[cfg(test)]
mod canons;
#[cfg(test)]
mod differences;
#[cfg(test)]
mod held;
#[cfg(test)]
mod pointers;
#[cfg(test)]
mod reading;
#[cfg(test)]
mod same;
#[cfg(test)]
mod vetting;
