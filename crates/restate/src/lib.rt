// Restate over bytes: a policy read, and its written form handed out. Knows nothing of logs and rooms.
#![tactic(auto)]

pub mod operations;
