// The contract of the session's calls on words, which the functions on words and those for C over them share. There is no function here, only
// definitions (specs/) and laws (proofs/).
#![tactic(auto)]
