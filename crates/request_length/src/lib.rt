// The whole length of a request PDU by its first bytes.
#![tactic(auto)]

ghost use Rattle.std.specs.Prelude.{◌≡◌};
ghost use Rattle.request_header.specs.Request.{length_answer_of, length_asked};

use field::HEADER_BYTES;
use refusal::Refusal;
use request_header::Limits;
use request_refusal::length_of;

// The whole length of the PDU that begins with these bytes: LENGTH under 48 of them, OPCODE, TOOLONG. Later bytes aren't looked at.
pub fn whole_length(input: &[u8], limits: Limits) -> Result<u32, Refusal>
    ensures { length_answer_of result ≡ length_asked limits input.now }
{
    let Some(header) = input.first_chunk::<HEADER_BYTES>() else {
        return Err(Refusal::Length);
    };
    length_of(header, limits)
}
