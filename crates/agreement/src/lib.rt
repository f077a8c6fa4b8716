// Theorems about the definitions of crate model, in proofs/: demand 3 for lists of calls and for runs over traces (what
// it says, and which transfers join the lists, is in specs/), that a record stays well formed, that a run is its
// commands called one after another, that an access is its bytes, what its report counts.
#![tactic(auto)]
