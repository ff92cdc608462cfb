// What each C call returns, and what it leaves in the slices that it was lent: definitions (specs/Calls.antt) and laws about them (proofs/), and so
// no function. The other crates of the family have the functions, and lampreycoil exports them.
#![tactic(auto)]
