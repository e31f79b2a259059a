// The form of a block of key=value pairs (RFC 7143, section 6.1).
#![tactic(auto)]

pub mod block;
