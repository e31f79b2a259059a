// The keys of the login phase (RFC 7143, section 13), judged: one pair of a block, by the request's stage and the keys that came.
#![tactic(auto)]

pub mod judge;
