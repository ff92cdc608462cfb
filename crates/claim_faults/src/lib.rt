// Statements and their proofs alone: what is claimed stands in specs/, and why it holds in proofs/. The crate claim_calls says each claim of every slice
// and number that a call can get.
#![tactic(auto)]
