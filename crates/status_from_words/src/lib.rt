// SCSI and Task Management Responses made of words.
#![tactic(auto, using(std::proofs::lemmas::Bool::Decides::nat_tests))]

ghost use Rattle.std.specs.Prelude.{◌≡◌};
ghost use Rattle.response_words.specs.ResponseWords.{scsi_response_of, task_management_response_of};

use response_header::{Response, ScsiResponse, TaskManagementResponse};
use response_words::{Unfit, WIDE_32};
use words::WIDE_8;

pub fn scsi_response(w: &[u64; 10]) -> Result<Response, Unfit>
    ensures { result ≡ scsi_response_of w.now }
{
    let o = w[1];
    let u = w[2];
    let code = w[3];
    let status = w[4];
    let stated = w[5];
    let itt = w[6];
    let tag = w[7];
    let residual = w[8];
    let exp_data_sn = w[9];
    if (((o < 2) & (u < 2)) & ((code < WIDE_8) & (status < WIDE_8)))
        & (((stated < WIDE_32) & (itt < WIDE_32))
            & (((tag < WIDE_32) & (residual < WIDE_32)) & (exp_data_sn < WIDE_32)))
    {
        Ok(Response::ScsiResponse(ScsiResponse {
            overflow: o != 0,
            underflow: u != 0,
            response: code as u8,
            status: status as u8,
            data_segment_length: stated as u32,
            initiator_task_tag: itt as u32,
            snack_tag: tag as u32,
            residual_count: residual as u32,
            exp_data_sn: exp_data_sn as u32,
        }))
    } else {
        Err(Unfit { stated })
    }
}

pub fn task_management_response(w: &[u64; 10]) -> Result<Response, Unfit>
    ensures { result ≡ task_management_response_of w.now }
{
    let code = w[1];
    let itt = w[2];
    if (code < WIDE_8) & (itt < WIDE_32) {
        Ok(Response::TaskManagementResponse(TaskManagementResponse {
            response: code as u8,
            initiator_task_tag: itt as u32,
        }))
    } else {
        Err(Unfit { stated: 0 })
    }
}
