// The record of a task, which the caller holds: what was asked for and what came, and the rules of the calls that move data. There is no
// function here: the parts that the record and the code's struct share, definitions (specs/) and laws (proofs/).
#![tactic(auto)]

// What a record is made from, and keeps.
#[derive(Clone, Copy)]
pub struct TaskGiven {
    pub initiator_task_tag: u32,
    pub lun: u64,
    // The Target Transfer Tag that a Data-In with A bears.
    pub transfer_tag: u32,
    pub max_burst_length: u32,
    pub max_outstanding_r2t: u32,
}

// The numbering of Data-In and R2T, one for both.
#[derive(Clone, Copy)]
pub struct Numbering {
    // How many were sent: the next DataSN and R2TSN.
    pub sent: u32,
    // How many of these are acknowledged.
    pub acknowledged: u32,
    // Whether a Data-In was ever sent.
    pub any_data_in: bool,
    // The tag of the latest SNACK of type 3; 0 until one comes, and no Option: `with_tag` and `is_due` test it, and it is a word of C's record.
    pub snack_tag: u32,
}

// The next Data-In's offset, and the bytes of its burst so far.
#[derive(Clone, Copy)]
pub struct DataInSequence {
    pub offset: u64,
    pub burst: u32,
}

// Up to where data was asked for and up to where it came, and the next Data-Out's DataSN in its burst.
#[derive(Clone, Copy)]
pub struct DataOutSequence {
    pub asked: u64,
    pub came: u64,
    pub data_sn: u32,
}
