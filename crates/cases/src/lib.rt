// The worked cases C1 to C10 of paper 01, shown of the definitions: a theorem only, in specs/.
#![tactic(auto)]
