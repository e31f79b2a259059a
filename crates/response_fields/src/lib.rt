// A response's own fields as whole numbers, kind by kind.
#![tactic(auto)]

ghost use Rattle.std.specs.Prelude.{◌≡◌, ◌+◌, ◌*◌, ◌%◌};
ghost use Rattle.response_header.specs.declared.Numbers.{Numbers};
ghost use Rattle.response_header.specs.declared.Response.TheVariants as R;
ghost use Rattle.response_header.specs.Response.{weigh, header_bytes};
ghost use Rattle.response_layout.specs.WholeNumbers.{own_bytes};

use data_fields::{data_in, r2t};
use field::{HEADER_BYTES, NONE, four, low_three, pair, six_two};
use response_header::{LoginResponse, NopIn, Reject, Response};
use response_layout::{OwnFields, weight};
use status_fields::{logout_response, scsi_response, task_management_response};

fn nop_in(x: NopIn) -> OwnFields
    ensures { (n : Numbers) → header_bytes (R.NopIn x) n ≡ own_bytes result n }
{
    let first = four(0x20, 0x80, 0, 0);
    let length = low_three(x.data_segment_length);
    OwnFields {
        at_0: pair(first, length),
        at_8: x.lun,
        at_16: pair(x.initiator_task_tag, x.target_transfer_tag),
        has_stat_sn: true,
        at_36: 0,
        at_40: 0,
    }
}

// Byte 1 of a Login Response. Of a response that is refused, what is too wide is cut.
fn login_flags(transit: bool, csg: u8, nsg: u8) -> u8
    ensures { result ≡ (weigh transit 0x80 + csg * 4 + nsg) % 256 }
{
    let stages = weight(transit, 0x80) as u32 + csg as u32 * 4 + nsg as u32;
    (stages % 256) as u8
}

fn login_response(x: LoginResponse) -> OwnFields
    ensures { (n : Numbers) → header_bytes (R.LoginResponse x) n ≡ own_bytes result n }
{
    let flags = login_flags(x.transit, x.csg, x.nsg);
    let first = four(0x23, flags, 0, 0);
    let length = low_three(x.data_segment_length);
    OwnFields {
        at_0: pair(first, length),
        at_8: six_two(x.isid, x.tsih),
        at_16: pair(x.initiator_task_tag, 0),
        has_stat_sn: true,
        at_36: four(x.status_class, x.status_detail, 0, 0),
        at_40: 0,
    }
}

fn reject(x: Reject) -> OwnFields
    ensures { (n : Numbers) → header_bytes (R.Reject x) n ≡ own_bytes result n }
{
    let first = four(0x3f, 0x80, x.reason, 0);
    OwnFields {
        at_0: pair(first, HEADER_BYTES as u32),
        at_8: 0,
        at_16: pair(NONE, 0),
        has_stat_sn: true,
        at_36: 0,
        at_40: 0,
    }
}

// The response's own fields, in whole numbers. Of a response that is refused, the values that are too wide are cut.
pub fn own_fields(r: Response) -> OwnFields
    ensures { (n : Numbers) → header_bytes r n ≡ own_bytes result n }
{
    match r {
        Response::NopIn(x) => nop_in(x),
        Response::ScsiResponse(x) => scsi_response(x),
        Response::TaskManagementResponse(x) => task_management_response(x),
        Response::LoginResponse(x) => login_response(x),
        Response::DataIn(x) => data_in(x),
        Response::LogoutResponse(x) => logout_response(x),
        Response::R2t(x) => r2t(x),
        Response::Reject(x) => reject(x),
    }
}
