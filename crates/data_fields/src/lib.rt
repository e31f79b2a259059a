// The own fields of Data-Ins and R2Ts as whole numbers.
#![tactic(auto)]

ghost use Rattle.std.specs.Prelude.{◌≡◌};
ghost use Rattle.response_header.specs.declared.Numbers.{Numbers};
ghost use Rattle.response_header.specs.declared.Response.TheVariants as R;
ghost use Rattle.response_header.specs.Response.{header_bytes};
ghost use Rattle.response_layout.specs.WholeNumbers.{own_bytes};

use field::{four, low_three, pair};
use response_header::{DataIn, R2t};
use response_layout::{OwnFields, weight};

pub fn data_in(x: DataIn) -> OwnFields
    ensures { (n : Numbers) → header_bytes (R.DataIn x) n ≡ own_bytes result n }
{
    let flags = weight(x.is_final, 0x80) + weight(x.acknowledge, 0x40);
    let first = four(0x25, flags, 0, 0);
    let length = low_three(x.data_segment_length);
    OwnFields {
        at_0: pair(first, length),
        at_8: x.lun,
        at_16: pair(x.initiator_task_tag, x.target_transfer_tag),
        has_stat_sn: false,
        at_36: x.data_sn,
        at_40: pair(x.buffer_offset, 0),
    }
}

pub fn r2t(x: R2t) -> OwnFields
    ensures { (n : Numbers) → header_bytes (R.R2t x) n ≡ own_bytes result n }
{
    let first = four(0x31, 0x80, 0, 0);
    OwnFields {
        at_0: pair(first, 0),
        at_8: x.lun,
        at_16: pair(x.initiator_task_tag, x.target_transfer_tag),
        has_stat_sn: true,
        at_36: x.r2t_sn,
        at_40: pair(x.buffer_offset, x.desired_data_transfer_length),
    }
}
