// A login between requests, and what a request is answered.
#![tactic(auto)]

pub mod state;
