// Demand 3 for lists of calls from C: no function, only what is stated in specs/ and shown in proofs/.
#![tactic(auto)]
