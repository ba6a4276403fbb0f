// Strings, entries and rows of a condition judged and held in one walk, and what stands between them. Whatever is not
// as it has to be is given up without a reason.
#![tactic(auto)]

pub mod entries;
pub mod forms;
pub mod keys;
pub mod marks;
pub mod rows;
pub mod strings;
