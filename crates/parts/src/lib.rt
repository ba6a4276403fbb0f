// The parts of a text held in a run: members, entries, words and lists of one.
#![tactic(auto)]

pub mod entries;
pub mod holding;
pub mod members;
pub mod sole;
pub mod words;
