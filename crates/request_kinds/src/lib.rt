// The fields of each kind of request, by its opcode. An opcode stays a number: `request` and `lun`, which docs/PROOF.md names, and
// `request_unnumbered::cmd_sn` promise what they do of any opcode, and an enum of the seven would ask more of a caller. So would an array of 48 in place
// of a slice (docs/DECISIONS.md).
#![tactic(auto)]

ghost use Rattle.std.specs.Prelude.{◌≡◌, ◌||◌, eqb, ◌≤◌, length};
ghost use Rattle.field.specs.Field.{be_at, pick};
ghost use Rattle.request_header.specs.Request.{nop_out_of, scsi_command_of, task_management_of, login_of, logout_of, request_of};

use field::{be, be16, be32, flag};
use request_header::{Login, Logout, NopOut, Request, ScsiCommand, TaskManagement};
use request_unnumbered::{data_out, snack};

fn nop_out(s: &[u8]) -> NopOut
    requires { 48 ≤ length s.now }
    ensures { result ≡ nop_out_of s.now }
{
    NopOut {
        target_transfer_tag: be32(s, 20),
    }
}

fn scsi_command(s: &[u8]) -> ScsiCommand
    requires { 48 ≤ length s.now }
    ensures { result ≡ scsi_command_of s.now }
{
    let b = s[1];
    ScsiCommand {
        is_final: flag(b, 128),
        is_read: flag(b, 64),
        is_write: flag(b, 32),
        attribute: b % 8,
        total_ahs_length: s[4],
        expected_data_transfer_length: be32(s, 20),
        cdb_0: be(s, 32, 8),
        cdb_1: be(s, 40, 8),
    }
}

fn task_management(s: &[u8]) -> TaskManagement
    requires { 48 ≤ length s.now }
    ensures { result ≡ task_management_of s.now }
{
    TaskManagement {
        function: s[1] % 128,
        referenced_task_tag: be32(s, 20),
        ref_cmd_sn: be32(s, 32),
        exp_data_sn: be32(s, 36),
    }
}

fn login(s: &[u8]) -> Login
    requires { 48 ≤ length s.now }
    ensures { result ≡ login_of s.now }
{
    let b = s[1];
    Login {
        transit: flag(b, 128),
        continues: flag(b, 64),
        csg: b / 4 % 4,
        nsg: b % 4,
        version_max: s[2],
        version_min: s[3],
        isid: be(s, 8, 6),
        tsih: be16(s, 14),
        cid: be16(s, 20),
    }
}

fn logout(s: &[u8]) -> Logout
    requires { 48 ≤ length s.now }
    ensures { result ≡ logout_of s.now }
{
    Logout {
        reason: s[1] % 128,
        cid: be16(s, 20),
    }
}

// The request of an opcode. It stays a match: each kind has its own function and its own variant, so a table of functions would have the same seven rows
// and ten holes, and be no plainer.
#[tactic(auto, unfolding(request_header::specs::Request::request_of))]
pub fn request(s: &[u8], op: u8) -> Request
    requires { 48 ≤ length s.now }
    ensures { result ≡ request_of op s.now }
{
    match op {
        0x00 => Request::NopOut(nop_out(s)),
        0x01 => Request::ScsiCommand(scsi_command(s)),
        0x02 => Request::TaskManagement(task_management(s)),
        0x03 => Request::Login(login(s)),
        0x05 => Request::DataOut(data_out(s)),
        0x06 => Request::Logout(logout(s)),
        _ => Request::Snack(snack(s)),
    }
}

// The LUN, which Login and Logout do not have.
pub fn lun(s: &[u8], op: u8) -> u64
    requires { 48 ≤ length s.now }
    ensures { result ≡ pick (eqb op 0x03 || eqb op 0x06) 0 (be_at s.now 8 8) }
{
    if (op == 0x03) | (op == 0x06) {
        0
    } else {
        be(s, 8, 8)
    }
}
