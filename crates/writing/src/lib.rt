// The written form of a held policy. Knows nothing of logs and rooms.
#![tactic(auto)]

pub mod entries;
pub mod plain;
pub mod policies;
pub mod rows;
pub mod sink;
pub mod spelling;
pub mod statements;
