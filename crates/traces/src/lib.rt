// What stands beside the chip: short runs by number, the writing of traces, a load to repeat (02, U12, U7, U9). The
// definitions are in specs/, what is shown of them in proofs/; their functions are in crates of their own.
#![tactic(auto)]
