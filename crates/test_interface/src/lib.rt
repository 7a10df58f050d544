//! The interface of the library by its paths: each type, trait and call once, with the types of its
//! arguments and of its result. A struct is written with all its fields, and an enum is matched with
//! all its variants. So a name that is gone, or a field too many, does not compile.
#![tactic(auto)]

#[cfg(test)]
mod canon;
#[cfg(test)]
mod engines;
#[cfg(test)]
mod frames;
#[cfg(test)]
mod jobs;
#[cfg(test)]
mod no_words;
#[cfg(test)]
mod nodes;
#[cfg(test)]
mod pointers;
#[cfg(test)]
mod same;
#[cfg(test)]
mod vetting;
#[cfg(test)]
mod words;
