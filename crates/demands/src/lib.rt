// The buyer's demands, as statements about the operations' promises, and their proofs. There is no code here.
#![tactic(auto)]
