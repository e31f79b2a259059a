// The value of a key of the table.
#![tactic(auto)]

pub mod value;
