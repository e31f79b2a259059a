// Held statuses of a session: acknowledged by the initiator, and resent. No call has a requirement of its caller: they refuse. What they give
// back of the session is the connection's ledger, where it is new; `session_state::after_ledger` puts it in its place.
#![tactic(auto)]

ghost use Rattle.std.specs.Prelude.{ℕ, List};
ghost use Rattle.task.specs.Agree.{record_of};
ghost use Rattle.window.specs.Agree.{Commands};
ghost use Rattle.ledger.specs.Agree.{Statuses, statuses_in};
ghost use Rattle.book.specs.Book.{Call, outputs, no_outputs};
ghost use Rattle.session_state.specs.Agree.{Did, state};
ghost use Rattle.session_statuses.specs.Answer.{acknowledge_answer, after_acknowledge, resend_answer};

use ledger::{LEDGER_BYTES, LEDGER_SLOTS, Released, Renewal};
use refusal::Refusal;
use session_state::{Session, reach};
use store::HEADER_BYTES;
use task::Task;

// Acknowledges the statuses of a connection before an ExpStatSN, with their count. NOCONN, CLOSED, STALE.
#[tactic(auto,
// The book's step.
unfolding(book::specs::Book::book_step, book::specs::Book::lending, book::specs::Book::on_connection, book::specs::Book::on_open,
// The step on an open connection.
book::specs::Book::acknowledge_by,
// A connection, in the book and in the code.
book::specs::Book::conn_of, session_state::specs::Agree::ConnAgrees, session_state::specs::After::conn_at))]
pub fn acknowledge(s: Session, conn: u32, exp_stat_sn: u32) -> Result<Released, Refusal>
    ensures { (k : Commands) (ss : Statuses)
        → Did (Call.acknowledge conn exp_stat_sn) (state s k ss) (acknowledge_answer result) no_outputs (state (after_acknowledge s conn result) k ss) }
{
    let l = reach(s, conn)?;
    ledger_held::acknowledge(l, exp_stat_sn).ok_or(Refusal::Stale)
}

// Resends a held status of a connection, with its ticket: its header, with the window numbers of now and, of a SCSI Response, what the record t has of
// its task, into the first 48 bytes of out. BUFFER, NOCONN, CLOSED, SNACK at level 0 or where the number is not held.
#[tactic(auto,
// The book's step.
unfolding(book::specs::Book::book_step, book::specs::Book::lending, book::specs::Book::on_connection, book::specs::Book::on_open,
// The step on an open connection.
book::specs::Book::resend_by,
// A connection, in the book and in the code.
book::specs::Book::conn_of, session_state::specs::Agree::ConnAgrees, session_state::specs::After::conn_at))]
pub fn resend(
    s: Session,
    conn: u32,
    stat_sn: u32,
    t: Task,
    statuses: &[u8; LEDGER_BYTES],
    status_tickets: &[u32; LEDGER_SLOTS],
    out: &mut [u8],
) -> Result<u32, Refusal>
    ensures { (k : Commands) (tags ends : List ℕ)
        → Did (Call.resend conn stat_sn (record_of t tags ends) (outputs out.old))
        (state s k (statuses_in statuses.now status_tickets.now))
        (resend_answer result) (outputs out.new)
        (state s k (statuses_in statuses.now status_tickets.now)) }
{
    // BUFFER, then NOCONN, CLOSED, as in each call that writes a header: a function of both would take one test out of four calls, and need a contract
    // of its own beside that of `reach`.
    if out.len() < HEADER_BYTES {
        return Err(Refusal::Buffer);
    }
    let l = reach(s, conn)?;
    if s.level == 0 {
        return Err(Refusal::Snack);
    }
    let w = s.window;
    let renewal = Renewal {
        exp_cmd_sn: window::exp_cmd_sn(w),
        max_cmd_sn: window::max_cmd_sn(w),
        numbering: t.numbering,
    };
    let c = conn as usize;
    let ticket = ledger_resend::resend(l, c, stat_sn, renewal, statuses, status_tickets, out);
    ticket.ok_or(Refusal::Snack)
}
