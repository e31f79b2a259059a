// The response that words are, by the opcode in the first.
#![tactic(auto)]

ghost use Rattle.std.specs.Prelude.{◌≡◌};
ghost use Rattle.response_words.specs.ResponseWords.{response_of};

use data_from_words::{data_in, nop_in, r2t, reject};
use login_from_words::{login_response, logout_response};
use response_header::Response;
use response_words::Unfit;
use status_from_words::{scsi_response, task_management_response};

// The response that the words are, or that they are none: an opcode that no response has, or a word too wide for its field. It stays a match: each kind
// has its own function, and a table of functions would have 24 holes between 0x20 and 0x3f and be no plainer.
#[tactic(auto, unfolding(response_words::specs::ResponseWords::response_of))]
pub fn response(w: &[u64; 10]) -> Result<Response, Unfit>
    ensures { result ≡ response_of w.now }
{
    let opcode = w[0];
    match opcode {
        0x20 => nop_in(w),
        0x21 => scsi_response(w),
        0x22 => task_management_response(w),
        0x23 => login_response(w),
        0x25 => data_in(w),
        0x26 => logout_response(w),
        0x31 => r2t(w),
        0x3f => reject(w),
        _ => Err(Unfit { stated: 0 }),
    }
}
