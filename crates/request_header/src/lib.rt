// A read PDU: its common fields together with one of seven requests. Fields are named as RFC 7143 names them.
#![tactic(auto)]

pub mod lengths;

ghost use Rattle.std.specs.Prelude.{◌≡◌};
ghost use Rattle.request_header.specs.Request.{limits};

#[derive(Clone, Copy)]
pub struct NopOut {
    pub target_transfer_tag: u32,
}

#[derive(Clone, Copy)]
pub struct ScsiCommand {
    // F, R and W of byte 1.
    pub is_final: bool,
    pub is_read: bool,
    pub is_write: bool,
    pub attribute: u8,
    pub total_ahs_length: u8,
    pub expected_data_transfer_length: u32,
    // Bytes 32 to 39 and 40 to 47 of the header.
    pub cdb_0: u64,
    pub cdb_1: u64,
}

#[derive(Clone, Copy)]
pub struct TaskManagement {
    pub function: u8,
    pub referenced_task_tag: u32,
    pub ref_cmd_sn: u32,
    pub exp_data_sn: u32,
}

#[derive(Clone, Copy)]
pub struct Login {
    // T and C of byte 1.
    pub transit: bool,
    pub continues: bool,
    pub csg: u8,
    pub nsg: u8,
    pub version_max: u8,
    pub version_min: u8,
    // 48 bits.
    pub isid: u64,
    pub tsih: u16,
    pub cid: u16,
}

#[derive(Clone, Copy)]
pub struct DataOut {
    // F of byte 1.
    pub is_final: bool,
    pub target_transfer_tag: u32,
    pub data_sn: u32,
    pub buffer_offset: u32,
}

#[derive(Clone, Copy)]
pub struct Logout {
    pub reason: u8,
    pub cid: u16,
}

// Types of a SNACK.
pub const SNACK_DATA_OR_R2T: u8 = 0;

pub const SNACK_STATUS: u8 = 1;

pub const SNACK_DATA_ACK: u8 = 2;

pub const SNACK_R_DATA: u8 = 3;

#[derive(Clone, Copy)]
pub struct Snack {
    // A number: `snack_of` gives whatever four bits stand there, and FIELD tells those above 3.
    pub snack_type: u8,
    // A SNACK Tag where the type is 3.
    pub target_transfer_tag: u32,
    pub beg_run: u32,
    pub run_length: u32,
}

#[derive(Clone, Copy)]
pub enum Request {
    NopOut(NopOut),
    ScsiCommand(ScsiCommand),
    TaskManagement(TaskManagement),
    Login(Login),
    DataOut(DataOut),
    Logout(Logout),
    Snack(Snack),
}

// The common fields, 0 where the request has none, as `pdu_of` and C's words have it, the request, and where its data segment lies in the input.
#[derive(Clone, Copy)]
pub struct Pdu {
    pub immediate: bool,
    pub lun: u64,
    pub initiator_task_tag: u32,
    pub cmd_sn: u32,
    pub exp_stat_sn: u32,
    pub request: Request,
    pub data_start: usize,
    pub data_segment_length: usize,
}

// What reading is held to: the longest data segment and the largest task management function.
#[derive(Clone, Copy)]
pub struct Limits {
    pub data_segment: u32,
    pub task_function: u8,
}

// The limits in force.
pub const LIMITS: Limits = Limits {
    data_segment: 8192,
    task_function: 8,
};

// They are those of the rules.
pub fn limits_in_force() -> Limits
    ensures { result ≡ limits }
{
    LIMITS
}
