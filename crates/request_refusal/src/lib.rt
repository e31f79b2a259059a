// The refusals of a request PDU before FIELD by its bytes, and the header of one that is not refused so.
#![tactic(auto)]

ghost use Rattle.std.specs.Prelude.{◌≡◌, IfOk, IfErr};
ghost use Rattle.refusal.specs.Refusal.{number};
ghost use Rattle.request_header.specs.Request.{known, length_answer_of, length_asked};
ghost use Rattle.request_header.specs.Verdicts.{IsHeader, refusal_before_field};

use field::HEADER_BYTES;
use refusal::Refusal;
use request_header::Limits;
use request_header::lengths::{data_length, data_start};

// Whether the opcode names a request that is read here; a number, as `request_kinds` has why.
#[tactic(auto, unfolding(request_header::specs::Request::known))]
pub fn is_known(op: u8) -> bool
    ensures { result ≡ known op }
{
    (op <= 3) | (op == 0x05) | (op == 0x06) | (op == 0x10)
}

// The whole length of the PDU that a header begins: OPCODE, TOOLONG.
#[tactic(auto, unfolding(request_header::specs::Request::length_asked, request_header::specs::Request::stated_length))]
pub fn length_of(header: &[u8; HEADER_BYTES], limits: Limits) -> Result<u32, Refusal>
    ensures { length_answer_of result ≡ length_asked limits header.now }
{
    if !is_known(header[0] % 64) {
        return Err(Refusal::Opcode);
    }
    let data_length = data_length(header);
    if (limits.data_segment as usize) < data_length {
        return Err(Refusal::TooLong);
    }
    let whole = data_start(header) + (data_length + 3) / 4 * 4;
    Ok(whole as u32)
}

// The header of an input that is exactly the PDU that it states, or the refusal before FIELD: LENGTH under 48 bytes, OPCODE, TOOLONG, LENGTH. Every
// reader begins with it.
pub fn header_of(input: &[u8], limits: Limits) -> Result<&[u8; HEADER_BYTES], Refusal>
    ensures header { IfOk result (λ h. IsHeader limits input.now h.now) }
    ensures refusal { IfErr result (λ f. number f ≡ refusal_before_field limits input.now) }
{
    let Some(header) = input.first_chunk::<HEADER_BYTES>() else {
        return Err(Refusal::Length);
    };
    let whole = length_of(header, limits)?;
    if input.len() != whole as usize {
        return Err(Refusal::Length);
    }
    Ok(header)
}
