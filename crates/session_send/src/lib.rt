// Sends a response of a session on a connection. The call has no requirement of its caller: it refuses. What it gives back of the session is the
// connection's ledger, where it is new; `session_state::after_ledger` puts it in its place.
#![tactic(auto)]

ghost use Rattle.std.specs.Prelude.{ℕ, List};
ghost use Rattle.task.specs.Agree.{record_of};
ghost use Rattle.window.specs.Agree.{Commands};
ghost use Rattle.ledger.specs.Agree.{statuses_in};
ghost use Rattle.book.specs.Book.{Call, outputs};
ghost use Rattle.session_state.specs.Agree.{Did, state};
ghost use Rattle.session_send.specs.Answer.{send_answer, after_send};

use ledger::{LEDGER_BYTES, LEDGER_SLOTS, Sent};
use refusal::Refusal;
use response_header::Response;
use session_state::{Session, longest_of, reach};
use store::HEADER_BYTES;
use task::Task;

// Sends a response with its ticket on a connection: its header, with the next StatSN and both window numbers, into the
// first 48 bytes of out. A SCSI Response has its ExpDataSN from the record t. BUFFER, NOCONN, CLOSED, writing's refusals, FIELD for a Data-In, an
// R2T, or a SCSI Response whose ITT or SNACK tag isn't the record's, FULL.
#[tactic(auto,
// The book's step.
unfolding(book::specs::Book::book_step, book::specs::Book::lending, book::specs::Book::on_connection, book::specs::Book::on_open,
// A connection, in the book and in the code.
book::specs::Book::conn_of, session_state::specs::Agree::ConnAgrees, session_state::specs::After::conn_at))]
pub fn send(
    s: Session,
    conn: u32,
    ticket: u32,
    r: Response,
    t: Task,
    out: &mut [u8],
    statuses: &mut [u8; LEDGER_BYTES],
    status_tickets: &mut [u32; LEDGER_SLOTS],
) -> Result<Sent, Refusal>
    ensures { (k : Commands) (tags ends : List ℕ)
        → Did (Call.send conn ticket r (record_of t tags ends) (outputs out.old))
        (state s k (statuses_in statuses.old status_tickets.old))
        (send_answer result) (outputs out.new)
        (state (after_send s conn result) k (statuses_in statuses.new status_tickets.new)) }
{
    // BUFFER, then NOCONN, CLOSED, as in each call that writes a header: a function of both would take one test out of four calls, and need a contract
    // of its own beside that of `reach`.
    if out.len() < HEADER_BYTES {
        return Err(Refusal::Buffer);
    }
    let l = reach(s, conn)?;
    let w = s.window;
    let e = window::exp_cmd_sn(w);
    let m = window::max_cmd_sn(w);
    let c = conn as usize;
    let n = t.numbering;
    let g = t.given;
    let whole = session_task::completed(r, n);
    let due = session_task::is_due(r, g.initiator_task_tag, n.snack_tag);
    let longest = longest_of(s, conn);
    ledger_send::send(
        l,
        c,
        ticket,
        whole,
        longest,
        due,
        e,
        m,
        out,
        statuses,
        status_tickets,
    )
}
