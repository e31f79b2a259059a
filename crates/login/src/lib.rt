// The login phase (RFC 7143, sections 6.2, 6.3, 11.12, 11.13): one request at a time, from the first to the full feature phase.
#![tactic(auto)]

pub mod request;
