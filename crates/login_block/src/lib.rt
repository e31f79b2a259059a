// The pairs of a block of the login phase, judged and answered.
#![tactic(auto)]

pub mod block;
