// The own fields of SCSI, Task Management and Logout Responses as whole numbers.
#![tactic(auto)]

ghost use Rattle.std.specs.Prelude.{◌≡◌};
ghost use Rattle.response_header.specs.declared.Numbers.{Numbers};
ghost use Rattle.response_header.specs.declared.Response.TheVariants as R;
ghost use Rattle.response_header.specs.Response.{header_bytes};
ghost use Rattle.response_layout.specs.WholeNumbers.{own_bytes};

use field::{four, low_three, pair, two};
use response_header::{LogoutResponse, ScsiResponse, TaskManagementResponse};
use response_layout::{OwnFields, weight};

pub fn scsi_response(x: ScsiResponse) -> OwnFields
    ensures { (n : Numbers) → header_bytes (R.ScsiResponse x) n ≡ own_bytes result n }
{
    let flags = 0x80 + weight(x.overflow, 0x04) + weight(x.underflow, 0x02);
    let first = four(0x21, flags, x.response, x.status);
    let length = low_three(x.data_segment_length);
    OwnFields {
        at_0: pair(first, length),
        at_8: 0,
        at_16: pair(x.initiator_task_tag, x.snack_tag),
        has_stat_sn: true,
        at_36: x.exp_data_sn,
        at_40: pair(0, x.residual_count),
    }
}

pub fn task_management_response(x: TaskManagementResponse) -> OwnFields
    ensures { (n : Numbers) → header_bytes (R.TaskManagementResponse x) n ≡ own_bytes result n }
{
    let first = four(0x22, 0x80, x.response, 0);
    OwnFields {
        at_0: pair(first, 0),
        at_8: 0,
        at_16: pair(x.initiator_task_tag, 0),
        has_stat_sn: true,
        at_36: 0,
        at_40: 0,
    }
}

pub fn logout_response(x: LogoutResponse) -> OwnFields
    ensures { (n : Numbers) → header_bytes (R.LogoutResponse x) n ≡ own_bytes result n }
{
    let first = four(0x26, 0x80, x.response, 0);
    let times = two(x.time2wait, x.time2retain);
    OwnFields {
        at_0: pair(first, 0),
        at_8: 0,
        at_16: pair(x.initiator_task_tag, 0),
        has_stat_sn: true,
        at_36: 0,
        at_40: pair(times, 0),
    }
}
