// Login and Logout Responses made of words.
#![tactic(auto, using(std::proofs::lemmas::Bool::Decides::nat_tests))]

ghost use Rattle.std.specs.Prelude.{◌≡◌};
ghost use Rattle.response_words.specs.ResponseWords.{login_response_of, logout_response_of};

use response_header::{LoginResponse, LogoutResponse, Response};
use response_words::{Unfit, WIDE_32};
use words::{WIDE_8, WIDE_16};

pub fn login_response(w: &[u64; 10]) -> Result<Response, Unfit>
    ensures { result ≡ login_response_of w.now }
{
    let t = w[1];
    let csg = w[2];
    let nsg = w[3];
    let stated = w[4];
    let isid = w[5];
    let tsih = w[6];
    let itt = w[7];
    let class = w[8];
    let detail = w[9];
    if (((t < 2) & (csg < WIDE_8)) & ((nsg < WIDE_8) & (stated < WIDE_32)))
        & (((tsih < WIDE_16) & (itt < WIDE_32)) & ((class < WIDE_8) & (detail < WIDE_8)))
    {
        Ok(Response::LoginResponse(LoginResponse {
            transit: t != 0,
            csg: csg as u8,
            nsg: nsg as u8,
            data_segment_length: stated as u32,
            isid,
            tsih: tsih as u16,
            initiator_task_tag: itt as u32,
            status_class: class as u8,
            status_detail: detail as u8,
        }))
    } else {
        Err(Unfit { stated })
    }
}

pub fn logout_response(w: &[u64; 10]) -> Result<Response, Unfit>
    ensures { result ≡ logout_response_of w.now }
{
    let code = w[1];
    let itt = w[2];
    let wait = w[3];
    let retain = w[4];
    if ((code < WIDE_8) & (itt < WIDE_32)) & ((wait < WIDE_16) & (retain < WIDE_16)) {
        Ok(Response::LogoutResponse(LogoutResponse {
            response: code as u8,
            initiator_task_tag: itt as u32,
            time2wait: wait as u16,
            time2retain: retain as u16,
        }))
    } else {
        Err(Unfit { stated: 0 })
    }
}
