// The eight responses that are written, the three numbers that each carries, and whether a response can be written.
#![tactic(auto)]

pub mod judge;

ghost use Rattle.std.specs.Prelude.{◌≡◌};
ghost use Rattle.response_header.specs.Response.{max_data_length};

#[derive(Clone, Copy)]
pub struct NopIn {
    pub data_segment_length: u32,
    pub lun: u64,
    pub initiator_task_tag: u32,
    pub target_transfer_tag: u32,
}

#[derive(Clone, Copy)]
pub struct ScsiResponse {
    // O and U of byte 1.
    pub overflow: bool,
    pub underflow: bool,
    pub response: u8,
    pub status: u8,
    pub data_segment_length: u32,
    pub initiator_task_tag: u32,
    pub snack_tag: u32,
    pub residual_count: u32,
    pub exp_data_sn: u32,
}

#[derive(Clone, Copy)]
pub struct TaskManagementResponse {
    pub response: u8,
    pub initiator_task_tag: u32,
}

#[derive(Clone, Copy)]
pub struct LoginResponse {
    pub transit: bool,
    pub csg: u8,
    pub nsg: u8,
    pub data_segment_length: u32,
    // 48 bits.
    pub isid: u64,
    pub tsih: u16,
    pub initiator_task_tag: u32,
    pub status_class: u8,
    pub status_detail: u8,
}

#[derive(Clone, Copy)]
pub struct DataIn {
    // F and A of byte 1.
    pub is_final: bool,
    pub acknowledge: bool,
    pub data_segment_length: u32,
    pub lun: u64,
    pub initiator_task_tag: u32,
    pub target_transfer_tag: u32,
    pub data_sn: u32,
    pub buffer_offset: u32,
}

#[derive(Clone, Copy)]
pub struct LogoutResponse {
    pub response: u8,
    pub initiator_task_tag: u32,
    pub time2wait: u16,
    pub time2retain: u16,
}

#[derive(Clone, Copy)]
pub struct R2t {
    pub lun: u64,
    pub initiator_task_tag: u32,
    pub target_transfer_tag: u32,
    pub r2t_sn: u32,
    pub buffer_offset: u32,
    pub desired_data_transfer_length: u32,
}

#[derive(Clone, Copy)]
pub struct Reject {
    pub reason: u8,
}

#[derive(Clone, Copy)]
pub enum Response {
    NopIn(NopIn),
    ScsiResponse(ScsiResponse),
    TaskManagementResponse(TaskManagementResponse),
    LoginResponse(LoginResponse),
    DataIn(DataIn),
    LogoutResponse(LogoutResponse),
    R2t(R2t),
    Reject(Reject),
}

#[derive(Clone, Copy)]
pub struct Numbers {
    pub stat_sn: u32,
    pub exp_cmd_sn: u32,
    pub max_cmd_sn: u32,
}

// The longest data segment that a response may state.
pub const MAX_DATA: u32 = 8192;

// It is that of the rules.
pub fn max_data_in_force() -> u32
    ensures { result ≡ max_data_length }
{
    MAX_DATA
}
