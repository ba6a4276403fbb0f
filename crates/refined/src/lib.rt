// The narrowed policy, written from a held policy and a room.
#![tactic(auto)]

pub mod finishing;
