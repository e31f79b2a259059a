// The fields of the two kinds of request that bear no CmdSN, Data-Out and SNACK, and the CmdSN of the others. The bytes are a slice of 48 or
// more: an array of 48 would ask more of a caller (docs/DECISIONS.md).
#![tactic(auto)]

ghost use Rattle.std.specs.Prelude.{◌≡◌, ◌||◌, eqb, ◌≤◌, length};
ghost use Rattle.field.specs.Field.{be_at, pick};
ghost use Rattle.request_header.specs.Request.{data_out_of, snack_of};

use field::{be32, flag};
use request_header::{DataOut, Snack};

pub fn data_out(s: &[u8]) -> DataOut
    requires { 48 ≤ length s.now }
    ensures { result ≡ data_out_of s.now }
{
    DataOut {
        is_final: flag(s[1], 128),
        target_transfer_tag: be32(s, 20),
        data_sn: be32(s, 36),
        buffer_offset: be32(s, 40),
    }
}

pub fn snack(s: &[u8]) -> Snack
    requires { 48 ≤ length s.now }
    ensures { result ≡ snack_of s.now }
{
    Snack {
        snack_type: s[1] % 16,
        target_transfer_tag: be32(s, 20),
        beg_run: be32(s, 40),
        run_length: be32(s, 44),
    }
}

// The CmdSN, which Data-Out and SNACK do not have.
pub fn cmd_sn(s: &[u8], op: u8) -> u32
    requires { 48 ≤ length s.now }
    ensures { result ≡ pick (eqb op 0x05 || eqb op 0x10) 0 (be_at s.now 24 4) }
{
    if (op == 0x05) | (op == 0x10) {
        0
    } else {
        be32(s, 24)
    }
}
