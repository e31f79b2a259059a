// A login request on a login's words, with its answer in words.
#![tactic(auto)]

ghost use Rattle.login_book.specs.Login.{login_step};
ghost use Rattle.login_types.specs.Agree.{book_of};
ghost use Rattle.login_words.specs.Login.{login_words, login_of, LoginSaid};

use login::request::login_request;
use login_words::{answer_in_words, changes_nothing, load, store};

// One login request.
pub fn request(
    n: &mut [u64; 8],
    values: &mut [u32; 12],
    seen: &mut [bool; 28],
    pdu: &[u8],
    live: u16,
    new: u16,
    ours: &[u8],
    gather: &mut [u8],
    text: &mut [u8],
    answer: &mut [u64; 8],
)
    ensures { LoginSaid (login_words n.old values.old seen.old) gather.old text.old
        (login_step (book_of (login_of (login_words n.old values.old seen.old)))
        pdu.now live new ours.now gather.old text.old)
        answer.new (login_words n.new values.new seen.new) gather.new text.new }
{
    let l = load(n, values, seen);
    let step = login_request(l, pdu, live, new, ours, gather, text);
    *answer = answer_in_words(step.answer);
    if changes_nothing(step.answer) {
        return;
    }
    store(n, values, seen, step.state);
}
