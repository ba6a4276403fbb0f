// The operations over bytes, numbers and rooms, and as a host is told of them.
#![tactic(auto)]

pub mod exports;
pub mod operations;
