// The rules of the login phase, and demand 2 of what they answer. There is no code here, only definitions (specs/) and laws (proofs/).
#![tactic(auto)]
