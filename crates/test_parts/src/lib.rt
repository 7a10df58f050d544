//! Tests of ends, words, packed texts and frames, by public calls alone: a file for each end, each encoding
//! of words and each way to read a frame.
#![tactic(auto)]

#[cfg(test)]
mod byte_io;
#[cfg(test)]
mod devices;
#[cfg(test)]
mod frames;
#[cfg(test)]
mod lanes;
#[cfg(test)]
mod packing;
#[cfg(test)]
mod same;
#[cfg(test)]
mod steps;
#[cfg(test)]
mod unpacking;
#[cfg(test)]
mod unpacking_buffered;
