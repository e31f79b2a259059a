// The text of a login: judged as one block, and answered into the text output.
#![tactic(auto)]

pub mod verdict;
