// Data-Ins, R2Ts, NOP-Ins and Rejects made of words.
#![tactic(auto, using(std::proofs::lemmas::Bool::Decides::nat_tests))]

ghost use Rattle.std.specs.Prelude.{◌≡◌};
ghost use Rattle.response_words.specs.ResponseWords.{nop_in_of, data_in_of, r2t_of, reject_of};

use response_header::{DataIn, NopIn, R2t, Reject, Response};
use response_words::{Unfit, WIDE_32};
use words::WIDE_8;

pub fn nop_in(w: &[u64; 10]) -> Result<Response, Unfit>
    ensures { result ≡ nop_in_of w.now }
{
    let stated = w[1];
    let lun = w[2];
    let itt = w[3];
    let ttt = w[4];
    if (stated < WIDE_32) & (itt < WIDE_32) & (ttt < WIDE_32) {
        Ok(Response::NopIn(NopIn {
            data_segment_length: stated as u32,
            lun,
            initiator_task_tag: itt as u32,
            target_transfer_tag: ttt as u32,
        }))
    } else {
        Err(Unfit { stated })
    }
}

pub fn data_in(w: &[u64; 10]) -> Result<Response, Unfit>
    ensures { result ≡ data_in_of w.now }
{
    let f = w[1];
    let a = w[2];
    let stated = w[3];
    let lun = w[4];
    let itt = w[5];
    let ttt = w[6];
    let data_sn = w[7];
    let offset = w[8];
    if (((f < 2) & (a < 2)) & ((stated < WIDE_32) & (itt < WIDE_32)))
        & (((ttt < WIDE_32) & (data_sn < WIDE_32)) & (offset < WIDE_32))
    {
        Ok(Response::DataIn(DataIn {
            is_final: f != 0,
            acknowledge: a != 0,
            data_segment_length: stated as u32,
            lun,
            initiator_task_tag: itt as u32,
            target_transfer_tag: ttt as u32,
            data_sn: data_sn as u32,
            buffer_offset: offset as u32,
        }))
    } else {
        Err(Unfit { stated })
    }
}

pub fn r2t(w: &[u64; 10]) -> Result<Response, Unfit>
    ensures { result ≡ r2t_of w.now }
{
    let lun = w[1];
    let itt = w[2];
    let ttt = w[3];
    let r2t_sn = w[4];
    let offset = w[5];
    let desired = w[6];
    if ((itt < WIDE_32) & (ttt < WIDE_32))
        & (((r2t_sn < WIDE_32) & (offset < WIDE_32)) & (desired < WIDE_32))
    {
        Ok(Response::R2t(R2t {
            lun,
            initiator_task_tag: itt as u32,
            target_transfer_tag: ttt as u32,
            r2t_sn: r2t_sn as u32,
            buffer_offset: offset as u32,
            desired_data_transfer_length: desired as u32,
        }))
    } else {
        Err(Unfit { stated: 0 })
    }
}

pub fn reject(w: &[u64; 10]) -> Result<Response, Unfit>
    ensures { result ≡ reject_of w.now }
{
    let reason = w[1];
    if reason < WIDE_8 {
        Ok(Response::Reject(Reject {
            reason: reason as u8,
        }))
    } else {
        Err(Unfit { stated: 0 })
    }
}
