// A send on words: a session as its numbers and maps, the arrays of the statuses' headers and tickets, and the response as words, which may be no
// response.
#![tactic(auto)]

ghost use Rattle.std.specs.Prelude.{◌≡◌, List, ℕ, length};
ghost use Rattle.window.specs.Agree.{Commands};
ghost use Rattle.ledger.specs.Agree.{Statuses, statuses_in};
ghost use Rattle.book.specs.Book.{Call, outputs};
ghost use Rattle.answer_words.specs.Answer.{packed};
ghost use Rattle.response_words.specs.ResponseWords.{response_of};
ghost use Rattle.task.specs.Agree.{record_of};
ghost use Rattle.task_words.specs.TaskWords.{task_words, record_in};
ghost use Rattle.call_words.specs.Session.{session_words, Said, SaidUnfit, sends, SaidBy};

use answer_words::DONE;
use field::HEADER_BYTES;
use ledger::{LEDGER_BYTES, LEDGER_SLOTS};
use refusal::Refusal;
use response_from_words::response;
use response_header::{MAX_DATA, Response};
use response_words::unfit_refusal;
use session_changes::store_ledger;
use session_state::reach;
use session_words::load;
use task::Task;

fn send_known(
    n: &mut [u32; 15],
    m: &mut [u64; 6],
    statuses: &mut [u8; LEDGER_BYTES],
    status_tickets: &mut [u32; LEDGER_SLOTS],
    t: Task,
    conn: u32,
    ticket: u32,
    r: Response,
    out: &mut [u8],
) -> u64
    ensures { (k : Commands) (tags ends : List ℕ)
        → Said (Call.send conn ticket r (record_of t tags ends) (outputs out.old))
        (session_words n.old m.old k (statuses_in statuses.old status_tickets.old))
        (packed result) (outputs out.new)
        (session_words n.new m.new k (statuses_in statuses.new status_tickets.new)) }
{
    let s = load(n, m);
    match session_send::send(s, conn, ticket, r, t, out, statuses, status_tickets) {
        Err(f) => answer_words::pack_refused(f),
        Ok(sent) => {
            if let Some(ledger) = sent.ledger {
                store_ledger(n, conn, ledger);
            }
            answer_words::pack(DONE, sent.stat_sn)
        }
    }
}

// The answer to words that are no response, with the length of the lent output: BUFFER, NOCONN, CLOSED, then writing's refusal of them.
fn send_unfit(n: &[u32; 15], m: &[u64; 6], conn: u32, stated: u64, lent: usize) -> u64
    ensures { (k : Commands) (ss : Statuses) (o : List ℕ) → length o ≡ lent
        → SaidUnfit conn stated (outputs o)
        (session_words n.now m.now k ss)
        (packed result) (outputs o)
        (session_words n.now m.now k ss) }
{
    if lent < HEADER_BYTES {
        return answer_words::pack_refused(Refusal::Buffer);
    }
    let s = load(n, m);
    match reach(s, conn) {
        Ok(_) => answer_words::pack_refused(unfit_refusal(stated, MAX_DATA)),
        Err(refusal) => answer_words::pack_refused(refusal),
    }
}

// Sends a response, its header into the first 48 bytes of out.
pub fn send(
    n: &mut [u32; 15],
    m: &mut [u64; 6],
    statuses: &mut [u8; LEDGER_BYTES],
    status_tickets: &mut [u32; LEDGER_SLOTS],
    task: &[u32; 12],
    wide: &[u64; 4],
    conn: u32,
    ticket: u32,
    words: &[u64; 10],
    out: &mut [u8],
) -> u64
    ensures { (k : Commands) (tags ends : List ℕ)
        → SaidBy (sends (response_of words.now) conn ticket (record_in (task_words task.now wide.now tags ends)) (outputs out.old))
        (session_words n.old m.old k (statuses_in statuses.old status_tickets.old))
        (packed result) (outputs out.new)
        (session_words n.new m.new k (statuses_in statuses.new status_tickets.new)) }
{
    match response(words) {
        Ok(r) => {
            let t = task_words::load(task, wide);
            send_known(n, m, statuses, status_tickets, t, conn, ticket, r, out)
        }
        Err(u) => send_unfit(n, m, conn, u.stated, out.len()),
    }
}
