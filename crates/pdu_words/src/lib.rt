// A request read into words, from the bytes of its header. Each kind is judged and written in its own branch, and not through `request_kinds`, whose
// enum goes through memory (docs/DECISIONS.md). Refusals stay numbers here: what `kind_words` and `read_words` give beside both arrays is C's answer, a number.
#![tactic(auto, using(request_words::proofs::Reading::header_words),
// What reading answers of a kind.
unfolding(request_words::specs::RequestWords::kind_words, request_words::specs::RequestWords::read_words,
// The words of a PDU.
request_words::specs::RequestWords::common_words, request_words::specs::RequestWords::own_words, request_words::specs::RequestWords::opcode_word,
// And the PDU of a header.
request_header::specs::Request::pdu_of, request_header::specs::Request::request_of))]

ghost use Rattle.std.specs.Prelude.{◌≡◌};
ghost use Rattle.request_header.specs.declared.Limits.{Limits};
ghost use Rattle.request_header.specs.Request.{read_pdu};
ghost use Rattle.request_words.specs.RequestWords.{ReadWords, read_words, kind_words};

use field::{HEADER_BYTES, be};
use refusal::number_of;
use request_header::Limits;
use request_refusal::header_of;
use request_rules::{login_ok, logout_ok, nop_out_ok, scsi_command_ok, task_management_ok};
use request_words::{FIELD, bit_word, data_out, immediate, put_common, snack};

fn nop_out(s: &[u8; HEADER_BYTES], common: &mut [u64; 8], own: &mut [u64; 9]) -> u32
    ensures { (m : Limits) → ◌≡◌ {A = ReadWords} (record { answer = result; common = common.new; own = own.new }) (kind_words m 0x00 s.now common.old own.old) }
{
    if !nop_out_ok(s) {
        return FIELD;
    }
    put_common(s, 0x00, immediate(s), be(s, 24, 4), be(s, 8, 8), common);
    *own = [be(s, 20, 4), 0, 0, 0, 0, 0, 0, 0, 0];
    0
}

fn scsi_command(s: &[u8; HEADER_BYTES], common: &mut [u64; 8], own: &mut [u64; 9]) -> u32
    ensures { (m : Limits) → ◌≡◌ {A = ReadWords} (record { answer = result; common = common.new; own = own.new }) (kind_words m 0x01 s.now common.old own.old) }
{
    if !scsi_command_ok(s) {
        return FIELD;
    }
    put_common(s, 0x01, immediate(s), be(s, 24, 4), be(s, 8, 8), common);
    let b = be(s, 1, 1);
    *own = [
        bit_word(b, 128),
        bit_word(b, 64),
        bit_word(b, 32),
        b % 8,
        be(s, 4, 1),
        be(s, 20, 4),
        be(s, 32, 8),
        be(s, 40, 8),
        0,
    ];
    0
}

fn task_management(
    s: &[u8; HEADER_BYTES],
    limits: Limits,
    common: &mut [u64; 8],
    own: &mut [u64; 9],
) -> u32
    ensures { ◌≡◌ {A = ReadWords} (record { answer = result; common = common.new; own = own.new }) (kind_words limits 0x02 s.now common.old own.old) }
{
    if !task_management_ok(s, limits) {
        return FIELD;
    }
    put_common(s, 0x02, immediate(s), be(s, 24, 4), be(s, 8, 8), common);
    *own = [
        be(s, 1, 1) % 128,
        be(s, 20, 4),
        be(s, 32, 4),
        be(s, 36, 4),
        0,
        0,
        0,
        0,
        0,
    ];
    0
}

fn login(s: &[u8; HEADER_BYTES], common: &mut [u64; 8], own: &mut [u64; 9]) -> u32
    ensures { (m : Limits) → ◌≡◌ {A = ReadWords} (record { answer = result; common = common.new; own = own.new }) (kind_words m 0x03 s.now common.old own.old) }
{
    if !login_ok(s) {
        return FIELD;
    }
    put_common(s, 0x03, immediate(s), be(s, 24, 4), 0, common);
    let b = be(s, 1, 1);
    *own = [
        bit_word(b, 128),
        bit_word(b, 64),
        b / 4 % 4,
        b % 4,
        be(s, 2, 1),
        be(s, 3, 1),
        be(s, 8, 6),
        be(s, 14, 2),
        be(s, 20, 2),
    ];
    0
}

fn logout(s: &[u8; HEADER_BYTES], common: &mut [u64; 8], own: &mut [u64; 9]) -> u32
    ensures { (m : Limits) → ◌≡◌ {A = ReadWords} (record { answer = result; common = common.new; own = own.new }) (kind_words m 0x06 s.now common.old own.old) }
{
    if !logout_ok(s) {
        return FIELD;
    }
    put_common(s, 0x06, immediate(s), be(s, 24, 4), 0, common);
    *own = [be(s, 1, 1) % 128, be(s, 20, 2), 0, 0, 0, 0, 0, 0, 0];
    0
}

// Reads a PDU into words: 0, or the number of the first refusal, which leaves both arrays. The opcode stays in a match: each kind has its own function,
// task management's with the limits too; the compiler makes a table of jumps of it, and one of functions would be no plainer.
#[tactic(auto, using(request_words::proofs::Reading::kind_decides, request_words::proofs::Reading::refused_words))]
pub fn read(input: &[u8], limits: Limits, common: &mut [u64; 8], own: &mut [u64; 9]) -> u32
    ensures { ◌≡◌ {A = ReadWords} (record { answer = result; common = common.new; own = own.new }) (read_words (read_pdu limits input.now) common.old own.old) }
{
    let header = match header_of(input, limits) {
        Ok(header) => header,
        Err(f) => return number_of(f) as u32,
    };
    let op = header[0] % 64;
    match op {
        0x00 => nop_out(header, common, own),
        0x01 => scsi_command(header, common, own),
        0x02 => task_management(header, limits, common, own),
        0x03 => login(header, common, own),
        0x05 => data_out(header, common, own),
        0x06 => logout(header, common, own),
        _ => snack(header, common, own),
    }
}
