// The login phase for C. A login is eight numbers, its settled values and which keys came; each call is lent these, the gather area and
// the text output. Contracts: as in `calls`.
ghost use Rattle.login_book.specs.Login.{login_step};
ghost use Rattle.std.specs.Prelude.{◌≡◌};
ghost use Rattle.login_types.specs.Agree.{book_of, fresh_login, IsFresh};
ghost use Rattle.login_words.specs.Login.{login_words, login_of, words_of, LoginSaid};

use login_types::state::State;
use login_words::store;

// A login before its first request.
#[unsafe(no_mangle)]
pub extern "C" fn drawbevel_core_login_fresh(
    n: &mut [u64; 8],
    values: &mut [u32; 12],
    seen: &mut [bool; 28],
)
    ensures { IsFresh (login_of (login_words n.new values.new seen.new))
        × (login_words n.new values.new seen.new ≡ words_of fresh_login) }
{
    let l = State::fresh();
    store(n, values, seen, l);
}

// One login request.
#[unsafe(no_mangle)]
pub extern "C" fn drawbevel_core_login(
    n: &mut [u64; 8],
    values: &mut [u32; 12],
    seen: &mut [bool; 28],
    pdu: &[u8],
    live: u16,
    new: u16,
    ours: &[u8],
    gather: &mut [u8],
    text: &mut [u8],
    answer: &mut [u64; 8],
)
    ensures { LoginSaid (login_words n.old values.old seen.old) gather.old text.old
        (login_step (book_of (login_of (login_words n.old values.old seen.old)))
        pdu.now live new ours.now gather.old text.old)
        answer.new (login_words n.new values.new seen.new) gather.new text.new }
{
    login_request_words::request(n, values, seen, pdu, live, new, ours, gather, text, answer);
}
