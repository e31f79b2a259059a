// The answers of what may be asked of a session, as words.
#![tactic(auto)]

ghost use Rattle.std.specs.Prelude.{◌≡◌};
ghost use Rattle.book.specs.Book.{Answer, Reply, length_reply};
ghost use Rattle.request_header.specs.Request.{length_answer_of};
ghost use Rattle.session_questions.specs.Answer.{next_answer, holder_answer};
ghost use Rattle.answer_words.specs.Answer.{answer_words, packed};

use answer_words::{DONE, FREE, HELD, OK, VOID, origin_word, pack_value};
use refusal::Refusal;
use session_questions::{HolderAnswer, WindowNumbers};

pub fn numbers(a: WindowNumbers) -> [u32; 4]
    ensures { result ≡ answer_words (Answer.told (Reply.numbers a.exp_cmd_sn a.max_cmd_sn)) }
{
    [DONE, a.exp_cmd_sn, a.max_cmd_sn, 0]
}

pub fn next(a: Result<u32, Refusal>) -> u64
    ensures { packed result ≡ answer_words (next_answer a) }
{
    pack_value(DONE, a)
}

pub fn holder(a: HolderAnswer) -> [u32; 4]
    ensures { result ≡ answer_words (Answer.told (Reply.holding (holder_answer a))) }
{
    match a {
        HolderAnswer::Free => [FREE, 0, 0, 0],
        HolderAnswer::Void => [VOID, 0, 0, 0],
        HolderAnswer::By { ticket, origin } => [HELD, ticket, origin_word(origin), 0],
    }
}

// A length goes with the number of no refusal.
pub fn length(a: Result<u32, Refusal>) -> u64
    ensures { packed result ≡ answer_words (length_reply (length_answer_of a)) }
{
    pack_value(OK, a)
}
