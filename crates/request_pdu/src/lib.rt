// A request PDU read whole, and its data segment.
#![tactic(auto)]

ghost use Rattle.std.specs.Prelude.{◌≡◌};
ghost use Rattle.request_header.specs.Request.{answer_of, read_pdu, pdu_of, data_of};

use field::{HEADER_BYTES, be32, flag};
use refusal::Refusal;
use request_header::lengths::{data_length, data_start};
use request_header::{Limits, Pdu};
use request_kinds::{lun, request};
use request_unnumbered::cmd_sn;
use request_verdict::good_header;

// What the header of that opcode says. The opcode is a number: see `request_kinds`.
#[tactic(auto, unfolding(request_header::specs::Request::pdu_of))]
fn pdu(s: &[u8; HEADER_BYTES], op: u8) -> Pdu
    ensures { result ≡ pdu_of op s.now }
{
    let r = request(s, op);
    Pdu {
        immediate: flag(s[0], 64) & !((op == 0x05) | (op == 0x10)),
        lun: lun(s, op),
        initiator_task_tag: be32(s, 16),
        cmd_sn: cmd_sn(s, op),
        exp_stat_sn: be32(s, 28),
        request: r,
        data_start: data_start(s),
        data_segment_length: data_length(s),
    }
}

// The PDU that the input is, or the first refusal.
pub fn read(input: &[u8], limits: Limits) -> Result<Pdu, Refusal>
    ensures { answer_of result ≡ read_pdu limits input.now }
{
    let header = good_header(input, limits)?;
    let op = header[0] % 64;
    Ok(pdu(header, op))
}

// The data segment of a PDU that was read from this input: a part of it, without pad.
#[tactic(auto, unfolding(request_header::specs::Request::data_of))]
pub fn data_of(input: &[u8], p: Pdu) -> &[u8]
    ensures { result.now ≡ data_of input.now p }
{
    let start = p.data_start;
    let len = p.data_segment_length;
    if input.len() < start {
        return &input[..0];
    }
    if input.len() - start < len {
        return &input[start..];
    }
    &input[start..start + len]
}
