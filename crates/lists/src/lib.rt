// Lemmas about lists, of which no other crate says anything: theorems only, in specs/.
#![tactic(auto)]
