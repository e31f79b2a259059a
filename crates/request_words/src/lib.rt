// Requests as words: what all kinds share, and the two that bear no CmdSN, Data-Out and SNACK, judged and written from the bytes of a header.
// Refusals stay numbers here: what `kind_words` gives beside both arrays is C's answer, a number. The bytes are a slice of 48 or more: an array of 48 would
// ask more of a caller (docs/DECISIONS.md).
#![tactic(auto, using(crate::proofs::Reading::header_words),
// What reading answers of a kind.
unfolding(crate::specs::RequestWords::kind_words, crate::specs::RequestWords::read_words,
// The words of a PDU.
crate::specs::RequestWords::common_words, crate::specs::RequestWords::own_words, crate::specs::RequestWords::opcode_word,
// And the PDU of a header.
request_header::specs::Request::pdu_of, request_header::specs::Request::request_of))]

ghost use Rattle.std.specs.Prelude.{◌≡◌, [], ◌∷◌, ◌<◌, ◌≤◌, length};
ghost use Rattle.field.specs.Field.{be_at, byte, bit};
ghost use Rattle.request_header.specs.declared.Limits.{Limits};
ghost use Rattle.request_header.specs.Request.{data_start_of, data_length_of};
ghost use Rattle.words.specs.Words.{flag_word};
ghost use Rattle.request_words.specs.RequestWords.{ReadWords, kind_words};

use field::be;
use request_header::lengths::{data_length, data_start};
use request_rules::{data_out_ok, snack_ok};

// C's answer that a field breaks a rule.
pub const FIELD: u32 = 3;

// The opcode, the common fields and the place of the data segment.
pub fn put_common(
    s: &[u8],
    opcode: u64,
    immediate: u64,
    cmd_sn: u64,
    lun: u64,
    common: &mut [u64; 8],
)
    requires { 48 ≤ length s.now }
    ensures { common.new ≡ opcode ∷ immediate ∷ cmd_sn ∷ lun ∷ be_at s.now 16 4 ∷ be_at s.now 28 4 ∷ data_start_of s.now ∷ data_length_of s.now ∷ [] }
{
    *common = [
        opcode,
        immediate,
        cmd_sn,
        lun,
        be(s, 16, 4),
        be(s, 28, 4),
        data_start(s) as u64,
        data_length(s) as u64,
    ];
}

// The bit of b whose weight is k, as a word. Of a word, as C's are, where `field::flag` is of a byte: neither casts.
pub fn bit_word(b: u64, k: u64) -> u64
    requires { 0 < k }
    ensures { result ≡ flag_word (bit b k) }
{
    b / k % 2
}

// The bit I.
pub fn immediate(s: &[u8]) -> u64
    requires { 48 ≤ length s.now }
    ensures { result ≡ flag_word (bit (byte s.now 0) 64) }
{
    bit_word(be(s, 0, 1), 64)
}

pub fn data_out(s: &[u8], common: &mut [u64; 8], own: &mut [u64; 9]) -> u32
    requires { 48 ≤ length s.now }
    ensures { (m : Limits) → ◌≡◌ {A = ReadWords} (record { answer = result; common = common.new; own = own.new }) (kind_words m 0x05 s.now common.old own.old) }
{
    if !data_out_ok(s) {
        return FIELD;
    }
    put_common(s, 0x05, 0, 0, be(s, 8, 8), common);
    *own = [
        bit_word(be(s, 1, 1), 128),
        be(s, 20, 4),
        be(s, 36, 4),
        be(s, 40, 4),
        0,
        0,
        0,
        0,
        0,
    ];
    0
}

pub fn snack(s: &[u8], common: &mut [u64; 8], own: &mut [u64; 9]) -> u32
    requires { 48 ≤ length s.now }
    ensures { (m : Limits) → ◌≡◌ {A = ReadWords} (record { answer = result; common = common.new; own = own.new }) (kind_words m 0x10 s.now common.old own.old) }
{
    if !snack_ok(s) {
        return FIELD;
    }
    put_common(s, 0x10, 0, 0, be(s, 8, 8), common);
    *own = [
        be(s, 1, 1) % 16,
        be(s, 20, 4),
        be(s, 40, 4),
        be(s, 44, 4),
        0,
        0,
        0,
        0,
        0,
    ];
    0
}
