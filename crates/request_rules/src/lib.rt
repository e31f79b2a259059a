// The field rules of the requests, over the bytes of a header. Each breach is FIELD. Each kind has its rules whole, so that who reads one
// kind looks at no other. The bytes are a slice of 48 or more: an array of 48 would ask more of a caller (docs/DECISIONS.md).
#![tactic(auto, using(request_header::proofs::FieldRules::kind_rules))]

ghost use Rattle.std.specs.Prelude.{◌≡◌, ◌||◌, ◌&&◌, ◌%◌, leb, eqb, ◌≤◌, length};
ghost use Rattle.field.specs.Field.{byte, bit};
ghost use Rattle.request_header.specs.declared.Limits.{Limits};
ghost use Rattle.request_header.specs.Request.{snack_ok};
ghost use Rattle.request_header.specs.Verdicts.{fields_ok};

use field::{be, flag};
use request_header::lengths::data_length;
use request_header::{Limits, SNACK_DATA_ACK, SNACK_DATA_OR_R2T, SNACK_R_DATA, SNACK_STATUS};

// The tag that stands for none, as wide as a field is read.
const NONE: u64 = field::NONE as u64;

// Byte 1's highest bit is set, and TotalAHSLength is 0.
fn top_bit_and_no_ahs(s: &[u8]) -> bool
    requires { 48 ≤ length s.now }
    ensures { result ≡ bit (byte s.now 1) 128 && eqb (byte s.now 4) 0 }
{
    flag(s[1], 128) & (s[4] == 0)
}

pub fn nop_out_ok(s: &[u8]) -> bool
    requires { 48 ≤ length s.now }
    ensures { (m : Limits) → result ≡ fields_ok m 0x00 s.now }
{
    top_bit_and_no_ahs(s) & ((be(s, 16, 4) != NONE) | flag(s[0], 64))
}

// What a SCSI Command's byte 1 must be: attribute at most 4, F and W not both clear.
fn command_ok(b: u8) -> bool
    ensures { result ≡ leb (b % 8) 4 && (bit b 128 || bit b 32) }
{
    let attribute = b % 8;
    let is_final = flag(b, 128);
    let is_write = flag(b, 32);
    (attribute <= 4) & (is_final | is_write)
}

pub fn scsi_command_ok(s: &[u8]) -> bool
    requires { 48 ≤ length s.now }
    ensures { (m : Limits) → result ≡ fields_ok m 0x01 s.now }
{
    command_ok(s[1])
}

pub fn task_management_ok(s: &[u8], limits: Limits) -> bool
    requires { 48 ≤ length s.now }
    ensures { result ≡ fields_ok limits 0x02 s.now }
{
    let function = s[1] % 128;
    top_bit_and_no_ahs(s)
        & ((1 <= function) & (function <= limits.task_function) & (data_length(s) == 0))
}

pub fn login_ok(s: &[u8]) -> bool
    requires { 48 ≤ length s.now }
    ensures { (m : Limits) → result ≡ fields_ok m 0x03 s.now }
{
    (s[4] == 0) & flag(s[0], 64)
}

// F may be clear, and no other field is looked at.
pub fn data_out_ok(s: &[u8]) -> bool
    requires { 48 ≤ length s.now }
    ensures { (m : Limits) → result ≡ fields_ok m 0x05 s.now }
{
    let total_ahs_length = s[4];
    total_ahs_length == 0
}

pub fn logout_ok(s: &[u8]) -> bool
    requires { 48 ≤ length s.now }
    ensures { (m : Limits) → result ≡ fields_ok m 0x06 s.now }
{
    top_bit_and_no_ahs(s) & ((s[1] % 128 <= 2) & (data_length(s) == 0))
}

// What a SNACK's type asks of its two tags.
fn tags_ok(snack_type: u8, itt: u64, ttt: u64) -> bool
    ensures { result ≡ snack_ok snack_type itt ttt }
{
    match snack_type {
        SNACK_DATA_OR_R2T => ttt == NONE,
        SNACK_STATUS => (itt == NONE) & (ttt == NONE),
        SNACK_DATA_ACK => itt == NONE,
        SNACK_R_DATA => (ttt != 0) & (ttt != NONE),
        _ => false,
    }
}

pub fn snack_ok(s: &[u8]) -> bool
    requires { 48 ≤ length s.now }
    ensures { (m : Limits) → result ≡ fields_ok m 0x10 s.now }
{
    top_bit_and_no_ahs(s) & tags_ok(s[1] % 16, be(s, 16, 4), be(s, 20, 4))
}
