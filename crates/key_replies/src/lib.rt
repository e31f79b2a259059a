// The answer to a judged pair of a block, in bytes.
#![tactic(auto)]

pub mod answer;
