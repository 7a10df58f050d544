//! Tests of jobs that the built program doesn't show: devices that fail in one exact call, and how a
//! command line is read.
#![tactic(auto)]

#[cfg(test)]
mod jobs;
#[cfg(test)]
mod pieces;
#[cfg(test)]
mod runs;
#[cfg(test)]
mod same;
#[cfg(test)]
mod whole;
