// Policies and requests held in runs of numbers: the limits, and where each part lies. Reads no text.
#![tactic(auto)]

pub mod limits;
pub mod places;
pub mod runs;
