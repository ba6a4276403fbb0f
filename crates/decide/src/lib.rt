// Decide over bytes: a policy and a record read, and decided. Knows nothing of logs and rooms.
#![tactic(auto)]

pub mod operations;
