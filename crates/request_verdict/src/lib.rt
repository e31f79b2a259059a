// The first refusal of a request PDU by its bytes, with FIELD: of any kind, and to one who reads SNACKs only.
#![tactic(auto)]

ghost use Rattle.std.specs.Prelude.{◌≡◌, true, IfOk, IfErr};
ghost use Rattle.refusal.specs.Refusal.{number};
ghost use Rattle.request_header.specs.Request.{known, opcode_of, refused, read_pdu};
ghost use Rattle.request_header.specs.Verdicts.{IsGoodHeader, fields_ok, first_refusal, IsSnackHeader, snack_only};

use field::HEADER_BYTES;
use refusal::Refusal;
use request_header::Limits;
use request_refusal::header_of;
use request_rules::{
    data_out_ok, login_ok, logout_ok, nop_out_ok, scsi_command_ok, snack_ok, task_management_ok,
};

// The rules of the kind that the opcode names, a number as `request_kinds` has why. It stays a match: each kind has its own rules, task management's by the
// limits too, so a table of functions would be no plainer.
fn fields_ok(s: &[u8; HEADER_BYTES], limits: Limits) -> bool
    requires { known (opcode_of s.now) ≡ true }
    ensures { result ≡ fields_ok limits (opcode_of s.now) s.now }
{
    let op = s[0] % 64;
    match op {
        0x00 => nop_out_ok(s),
        0x01 => scsi_command_ok(s),
        0x02 => task_management_ok(s, limits),
        0x03 => login_ok(s),
        0x05 => data_out_ok(s),
        0x06 => logout_ok(s),
        _ => snack_ok(s),
    }
}

// The header of a good PDU, or the first refusal, FIELD last.
pub fn good_header(input: &[u8], limits: Limits) -> Result<&[u8; HEADER_BYTES], Refusal>
    ensures header { IfOk result (λ h. IsGoodHeader limits input.now h.now) }
    ensures refusal { IfErr result (λ f. number f ≡ first_refusal limits input.now) }
{
    let header = header_of(input, limits)?;
    if fields_ok(header, limits) {
        Ok(header)
    } else {
        Err(Refusal::Field)
    }
}

// The header of a good SNACK, or reading's refusal, FIELD for another kind: the rules of another are not looked at. Its readers have it in their own
// code: called, it took a fifth more instructions.
#[inline(always)]
pub fn snack_header(input: &[u8], limits: Limits) -> Result<&[u8; HEADER_BYTES], Refusal>
    ensures header { IfOk result (λ h. IsSnackHeader limits input.now h.now) }
    ensures refusal { IfErr result (λ f. snack_only (read_pdu limits input.now) ≡ refused (number f)) }
{
    let header = header_of(input, limits)?;
    if (header[0] % 64 != 0x10) | !snack_ok(header) {
        return Err(Refusal::Field);
    }
    Ok(header)
}
