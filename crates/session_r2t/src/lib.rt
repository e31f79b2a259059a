// What a session sends to ask for a task's data: R2Ts. The call has no requirement of its caller: it refuses. It changes nothing in the
// session; what is new of the task's record is in the answer.
#![tactic(auto)]

ghost use Rattle.task.specs.Agree.{record_of, r2t_step_of, R2TStays};
ghost use Rattle.window.specs.Agree.{Commands};
ghost use Rattle.ledger.specs.Agree.{Statuses};
ghost use Rattle.book.specs.Book.{Call, Transfer, outputs};
ghost use Rattle.session_state.specs.Agree.{Did, state};
ghost use Rattle.session_state.specs.Transfer.{transferred};

use refusal::Refusal;
use session_header::write_header;
use session_state::{Session, reach};
use store::HEADER_BYTES;
use task::{OPEN_PLACES, R2tSent, Task};

// Sends an R2T for a task on a connection: its header, with the next StatSN, which it doesn't use up, and both window numbers, into the first 48
// bytes of out. BUFFER, NOCONN, CLOSED, FIELD as the task's record has it. The R2T is open then; a refusal leaves the arrays.
#[tactic(auto,
// The book's step.
unfolding(book::specs::Book::book_step, book::specs::Book::lending, book::specs::Book::on_connection, book::specs::Book::on_open,
// The step on an open connection.
book::specs::Book::transfer_by, book::specs::Book::moved_by,
// A connection, in the book and in the code.
book::specs::Book::conn_of, session_state::specs::Agree::ConnAgrees, session_state::specs::After::conn_at))]
pub fn r2t(
    s: Session,
    conn: u32,
    t: Task,
    tag: u32,
    length: u32,
    tags: &mut [u32; OPEN_PLACES],
    ends: &mut [u64; OPEN_PLACES],
    out: &mut [u8],
) -> Result<R2tSent, Refusal>
    ensures { ((k : Commands) (ss : Statuses)
        → Did (Call.transfer conn (record_of t tags.old ends.old) (Transfer.r2t tag length (outputs out.old)))
        (state s k ss) (transferred (r2t_step_of t tags.new ends.new result)) (outputs out.new) (state s k ss))
        × R2TStays result tags.old ends.old tags.new ends.new }
{
    // BUFFER, then NOCONN, CLOSED, as in each call that writes a header: a function of both would take one test out of four calls, and need a contract
    // of its own beside that of `reach`.
    if out.len() < HEADER_BYTES {
        return Err(Refusal::Buffer);
    }
    let l = reach(s, conn)?;
    let sent = task_r2t::r2t(t, tag, length, tags, ends)?;
    let asks = data_fields::r2t(sent.header);
    write_header(s.window, l.next, asks, out);
    Ok(sent)
}
