// The book of a session, and demand 3 of what it answers. There is no function here: what a session and a connection are given at
// their opening, definitions (specs/) and laws (proofs/).
#![tactic(auto)]

// What a connection is given at its opening.
#[derive(Clone, Copy)]
pub struct Opening {
    // Its first StatSN.
    pub stat_sn: u32,
}

// What a fresh session is given.
#[derive(Clone, Copy)]
pub struct Given {
    // Its first command number.
    pub first: u32,
    // The ErrorRecoveryLevel.
    pub level: u8,
    // What connection 0 is given, which is open from the start.
    pub opening: Opening,
}
