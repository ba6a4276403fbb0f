// Forms of texts: actions, resources, keys, Sids, numbers and wildcards. Knows nothing of where they stand.
#![tactic(auto)]

pub mod forms;
pub mod numbers;
pub mod symbols;
