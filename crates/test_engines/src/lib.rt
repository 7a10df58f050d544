//! Tests of engines and of lines that the built program doesn't show: limits of words and of messages, which no option
//! sets, sinks and counts after a fault, calls of devices that fail, and the line of each fault.
#![tactic(auto)]

#[cfg(test)]
mod canons;
#[cfg(test)]
mod copies;
#[cfg(test)]
mod ends;
#[cfg(test)]
mod engines;
#[cfg(test)]
mod faults;
#[cfg(test)]
mod hashes;
#[cfg(test)]
mod same;
