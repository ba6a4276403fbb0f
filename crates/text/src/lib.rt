// Text: bytes to a JSON text and its contents. Knows no policy, no record and no refusal number.
#![tactic(auto)]

pub mod ends;
pub mod fault;
pub mod numbers;
pub mod onward;
pub mod quick;
pub mod quoted;
pub mod scan;
pub mod walk;
pub mod white;
