//! Tests of failed allocations: the result of each call that allocates, and the state after it.
//!
//! Each test has constant inputs and allocates nothing itself, so that the allocations of the call
//! under test are its only ones. It ends well if none of them fails. If one fails, the call has to
//! report it and to leave the state that is promised, and then the test ends with the error
//! `refused`. With ample memory each ends well; `make allocations` makes each allocation fail in turn.
#![tactic(auto)]

#[cfg(test)]
mod copies;
#[cfg(test)]
mod engines;
#[cfg(test)]
mod outputs;
#[cfg(test)]
mod reading;
#[cfg(test)]
mod same;
