// Rooms: a policy's entries listed once, and testing, charging and joining the rows of a room by that list.
#![tactic(auto)]

pub mod listing;
pub mod walking;
