// Characters: the body of a JSON string to characters and back, and the lines of a log. Knows no JSON text.
#![tactic(auto)]

pub mod lines;
pub mod strings;
pub mod written;
