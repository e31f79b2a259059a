// The text of a login that comes in pieces: gathered, and judged as one block.
#![tactic(auto)]

pub mod gather;
