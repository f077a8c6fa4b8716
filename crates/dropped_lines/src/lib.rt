// 02, U13, dropped lines: no function, only what is stated in specs/ and shown in proofs/.
#![tactic(auto)]
