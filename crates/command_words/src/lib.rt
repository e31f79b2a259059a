// Offer and take on words: a session as its numbers and maps, and the arrays of the window's headers and tickets.
#![tactic(auto)]

ghost use Rattle.window.specs.Agree.{commands};
ghost use Rattle.ledger.specs.Agree.{Statuses};
ghost use Rattle.book.specs.Book.{Call, outputs, no_outputs};
ghost use Rattle.answer_words.specs.Answer.{packed};
ghost use Rattle.call_words.specs.Session.{session_words, Said};

use answer_words::IMMEDIATE;
use session_changes::store_window;
use session_commands::Offered;
use session_words::load;
use window::{WINDOW_BYTES, WINDOW_SLOTS};

// Offers a whole PDU with its ticket on a connection.
pub fn offer(
    n: &mut [u32; 15],
    m: &mut [u64; 6],
    headers: &mut [u8; WINDOW_BYTES],
    tickets: &mut [u32; WINDOW_SLOTS],
    conn: u32,
    ticket: u32,
    pdu: &[u8],
) -> u64
    ensures { (ss : Statuses)
        → Said (Call.offer conn ticket pdu.now)
        (session_words n.old m.old (commands headers.old tickets.old) ss)
        (packed result) no_outputs
        (session_words n.new m.new (commands headers.new tickets.new) ss) }
{
    let s = load(n, m);
    match session_commands::offer(s, conn, ticket, pdu, headers, tickets) {
        Ok(step) => match step.answer {
            Offered::Immediate => answer_words::pack(IMMEDIATE, 0),
            Offered::Numbered(x) => {
                store_window(n, m, step.window);
                call_answer_words::placed(x)
            }
        },
        Err(f) => answer_words::pack_refused(f),
    }
}

// Takes the next command, its header into the first 48 bytes of out.
pub fn take(
    n: &mut [u32; 15],
    m: &mut [u64; 6],
    headers: &[u8; WINDOW_BYTES],
    tickets: &[u32; WINDOW_SLOTS],
    out: &mut [u8],
    answer: &mut [u32; 4],
)
    ensures { (ss : Statuses)
        → Said (Call.take (outputs out.old))
        (session_words n.old m.old (commands headers.now tickets.now) ss)
        answer.new (outputs out.new)
        (session_words n.new m.new (commands headers.now tickets.now) ss) }
{
    let s = load(n, m);
    match session_commands::take(s, headers, tickets, out) {
        Ok(taken) => {
            store_window(n, m, taken.window);
            *answer = call_answer_words::handed_out(taken.answer);
        }
        Err(f) => {
            *answer = answer_words::refused(f);
        }
    }
}
