// Numbers in the text of the login phase (RFC 7143, section 6.1), read and written in decimal.
#![tactic(auto)]

pub mod number;
