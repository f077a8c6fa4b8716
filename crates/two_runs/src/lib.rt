// Theorems about the definitions of crate model, in proofs/: two runs that differ only in data show the same cache
// behaviour, and one byte's difference stays at its address (02, U8; what is said is in specs/).
#![tactic(auto)]
