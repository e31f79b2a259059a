// The answers of the calls that change a session, as words.
#![tactic(auto)]

ghost use Rattle.std.specs.Prelude.{◌≡◌};
ghost use Rattle.book.specs.Book.{Answer, from_window};
ghost use Rattle.session_statuses.specs.Answer.{resend_answer};
ghost use Rattle.session_snack.specs.Answer.{snack_answer};
ghost use Rattle.window.specs.Agree;
ghost use Rattle.window.specs.Book as W;
ghost use Rattle.answer_words.specs.Answer.{answer_words, packed};

use answer_words::{
    BEYOND, COMMAND, DONE, DUPLICATE, KEPT, NOTHING, PASSED, VOID, origin_word, pack, pack_value,
    refused,
};
use ledger::Run;
use refusal::Refusal;
use window::{Offered, Taken};

pub fn placed(a: Offered) -> u64
    ensures { packed result ≡ answer_words (from_window (Rattle.window.specs.Agree.offer_answer a)) }
{
    match a {
        Offered::Kept => pack(KEPT, 0),
        Offered::Duplicate => pack(DUPLICATE, 0),
        Offered::Passed => pack(PASSED, 0),
        Offered::Beyond => pack(BEYOND, 0),
    }
}

pub fn handed_out(a: Taken) -> [u32; 4]
    ensures { result ≡ answer_words (from_window (Rattle.window.specs.Agree.take_answer a)) }
{
    match a {
        Taken::Nothing => [NOTHING, 0, 0, 0],
        Taken::Void(n) => [VOID, n, 0, 0],
        Taken::Command {
            number,
            ticket,
            origin,
        } => [COMMAND, number, ticket, origin_word(origin)],
    }
}

// The counts of a logout.
pub fn logged_out(emptied: u32, voided: u32) -> [u32; 4]
    ensures { result ≡ answer_words (Answer.window (W.logged_out emptied voided)) }
{
    [DONE, emptied, voided, 0]
}

pub fn run(a: Result<Run, Refusal>) -> [u32; 4]
    ensures { result ≡ answer_words (snack_answer a) }
{
    match a {
        Ok(Run { first, count }) => [DONE, first, count, 0],
        Err(f) => refused(f),
    }
}

// The ticket of a status that is sent again.
pub fn resent(a: Result<u32, Refusal>) -> u64
    ensures { packed result ≡ answer_words (resend_answer a) }
{
    pack_value(DONE, a)
}
