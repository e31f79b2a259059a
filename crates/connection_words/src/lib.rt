// The calls that open and close connections, on words: a session as its numbers and maps.
#![tactic(auto)]

ghost use Rattle.window.specs.Agree.{Commands};
ghost use Rattle.ledger.specs.Agree.{Statuses};
ghost use Rattle.book.specs.Book.{Call, no_outputs};
ghost use Rattle.answer_words.specs.Answer.{packed};
ghost use Rattle.call_words.specs.Given.{opening_of};
ghost use Rattle.call_words.specs.Session.{session_words, Said};

use answer_words::DONE;
use book::Opening;
use session_changes::{close, store_conn, store_window};
use session_words::load;

// Opens a connection that isn't open, with its first StatSN.
pub fn open(n: &mut [u32; 15], m: &mut [u64; 6], conn: u32, stat_sn: u32) -> u64
    ensures { (k : Commands) (ss : Statuses)
        → Said (Call.opening conn (opening_of stat_sn))
        (session_words n.old m.old k ss)
        (packed result) no_outputs
        (session_words n.new m.new k ss) }
{
    let given = Opening { stat_sn };
    match session_connections::open_connection(load(n, m), conn, given) {
        Err(f) => answer_words::pack_refused(f),
        Ok(k) => {
            store_conn(n, conn, k);
            answer_words::pack(DONE, 0)
        }
    }
}

// The effect of a logout on an open connection.
pub fn logout(n: &mut [u32; 15], m: &mut [u64; 6], conn: u32, reason: u8, answer: &mut [u32; 4])
    ensures { (k : Commands) (ss : Statuses)
        → Said (Call.logout conn reason)
        (session_words n.old m.old k ss)
        answer.new no_outputs
        (session_words n.new m.new k ss) }
{
    *answer = match session_connections::logout(load(n, m), conn, reason) {
        Err(f) => answer_words::refused(f),
        Ok(l) => {
            store_window(n, m, l.window);
            close(n, conn, l.closes);
            call_answer_words::logged_out(l.emptied, l.voided)
        }
    };
}
