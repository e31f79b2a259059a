// A response's header written from the words of the response.
#![tactic(auto)]

ghost use Rattle.std.specs.Prelude.{◌≡◌};
ghost use Rattle.response_writer.specs.Writing.{Outcome, answered};
ghost use Rattle.response_words.specs.ResponseWords.{response_of};
ghost use Rattle.write_words.specs.WriteWords.{write_words, numbers_of};

use field::HEADER_BYTES;
use refusal::Refusal;
use response_from_words::response;
use response_header::{MAX_DATA, Numbers};
use response_words::unfit_refusal;

// Writes the response that the words are; words that are none are TOOLONG by the data length that they state, else FIELD; both after BUFFER.
#[tactic(auto, unfolding(crate::specs::WriteWords::write_words))]
fn written(out: &mut [u8], words: &[u64; 10], n: Numbers) -> Result<(), Refusal>
    ensures { ◌≡◌ {A = Outcome} (record { answer = answered result; bytes = out.new }) (write_words (response_of words.now) out.old n) }
{
    match response(words) {
        Ok(r) => response_writer::write(out, r, n, MAX_DATA),
        Err(u) => {
            if out.len() < HEADER_BYTES {
                return Err(Refusal::Buffer);
            }
            Err(unfit_refusal(u.stated, MAX_DATA))
        }
    }
}

// Writes a response's header into the first 48 bytes of out: 0, or the refusal's number, which leaves every byte.
pub fn write(
    out: &mut [u8],
    words: &[u64; 10],
    stat_sn: u32,
    exp_cmd_sn: u32,
    max_cmd_sn: u32,
) -> u32
    ensures { ◌≡◌ {A = Outcome} (record { answer = result; bytes = out.new }) (write_words (response_of words.now) out.old (numbers_of stat_sn exp_cmd_sn max_cmd_sn)) }
{
    let n = Numbers {
        stat_sn,
        exp_cmd_sn,
        max_cmd_sn,
    };
    match written(out, words, n) {
        Ok(()) => 0,
        Err(f) => refusal::number_of(f) as u32,
    }
}
