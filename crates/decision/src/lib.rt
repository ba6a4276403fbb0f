// The decision on a held request under a held policy. Knows nothing of logs and rooms.
#![tactic(auto)]

pub mod deciding;
pub mod matching;
