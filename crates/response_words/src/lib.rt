// What words are: a response, or none. A word too wide for its field makes them none: no word is cut.
#![tactic(auto)]

ghost use Rattle.std.specs.Prelude.{◌≡◌};
ghost use Rattle.refusal.specs.Refusal.{number};
ghost use Rattle.response_words.specs.ResponseWords.{unfit_refusal};

use refusal::Refusal;
use response_header::judge::too_long;

// One more than the greatest value of a field of 32 bits; `words` has those of 16 and 8. A kind tests all its words at once and then casts: `try_from` on each
// word would be as many exits, each with the same Unfit.
pub const WIDE_32: u64 = 0x1_0000_0000;

// Words that are no response, by the data length that they state.
#[derive(Clone, Copy)]
pub struct Unfit {
    pub stated: u64,
}

// Writing's refusal of words that are no response, by the data length that they state: TOOLONG, else FIELD.
#[tactic(auto, unfolding(crate::specs::ResponseWords::unfit_refusal))]
pub fn unfit_refusal(stated: u64, max_data: u32) -> Refusal
    ensures { number result ≡ unfit_refusal max_data stated }
{
    if too_long(stated, max_data) {
        Refusal::TooLong
    } else {
        Refusal::Field
    }
}
