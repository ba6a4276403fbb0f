// What an entry narrows to: candidates, what they cover, how two join, and the row that holds one.
#![tactic(auto)]

pub mod beginnings;
pub mod bounding;
pub mod charging;
pub mod fitting;
pub mod joining;
pub mod kinds;
pub mod legality;
pub mod places;
pub mod rows;
