// Statements and their proofs alone: what is claimed of the calls on Majordomo commands stands in specs/, and why it holds in proofs/. The crate claim_calls says
// each claim of every slice and number that a call can get.
#![tactic(auto)]
