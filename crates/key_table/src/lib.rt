// The known keys of the login phase, and the settled parameters.
#![tactic(auto)]

pub mod parameters;
pub mod table;
