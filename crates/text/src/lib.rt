// Text of the login phase (RFC 7143, section 6): slices of bytes and comma lists.
#![tactic(auto)]

pub mod slice;
