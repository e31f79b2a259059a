// The checks of a Login request; the login and the answer after it.
#![tactic(auto)]

pub mod answer;
pub mod checks;
pub mod gathered;
