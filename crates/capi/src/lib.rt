// Drawbevel for C. Each function takes numbers, slices (a pointer and a length) and arrays of fixed size; include/drawbevel.h
// declares them and has the structs that these arrays are; lengths are written out here, as they are there.
#![tactic(auto)]

pub mod calls;
pub mod logins;
pub mod pdu;
pub mod questions;
pub mod transfers;
