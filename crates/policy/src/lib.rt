// Policies and records: layouts and refusals, read from bytes into held runs. Knows nothing of logs and rooms.
#![tactic(auto)]

pub mod contexts;
pub mod onward;
pub mod reading;
pub mod refusals;
pub mod requests;
pub mod rows;
pub mod soon;
pub mod statements;
pub mod unfit;
