// What a session sends of a task's data: Data-In. The call has no requirement of its caller: it refuses. It changes nothing in the session;
// what is new of the task's record is in the answer.
#![tactic(auto)]

ghost use Rattle.std.specs.Prelude.{List, ℕ};
ghost use Rattle.task.specs.Agree.{record_of, data_in_step_of};
ghost use Rattle.window.specs.Agree.{Commands};
ghost use Rattle.ledger.specs.Agree.{Statuses};
ghost use Rattle.book.specs.Book.{Call, Transfer, outputs};
ghost use Rattle.session_state.specs.Agree.{Did, state};
ghost use Rattle.session_state.specs.Transfer.{transferred};

use refusal::Refusal;
use response_header::judge::too_long;
use session_header::write_header;
use session_state::{Session, longest_of, reach};
use store::HEADER_BYTES;
use task::{DataInSent, Task};

// Sends a Data-In for a task on a connection: its header, with both window numbers, into the first 48 bytes of out. BUFFER, NOCONN, CLOSED, TOOLONG,
// FIELD as the task's record has it.
#[tactic(auto,
// The book's step.
unfolding(book::specs::Book::book_step, book::specs::Book::lending, book::specs::Book::on_connection, book::specs::Book::on_open,
// The step on an open connection.
book::specs::Book::transfer_by, book::specs::Book::moved_by,
// A connection, in the book and in the code.
book::specs::Book::conn_of, session_state::specs::Agree::ConnAgrees, session_state::specs::After::conn_at))]
pub fn data_in(
    s: Session,
    conn: u32,
    t: Task,
    is_final: bool,
    acknowledge: bool,
    length: u32,
    out: &mut [u8],
) -> Result<DataInSent, Refusal>
    ensures { (k : Commands) (ss : Statuses) (tags ends : List ℕ)
        → Did (Call.transfer conn (record_of t tags ends) (Transfer.data_in is_final acknowledge length (outputs out.old)))
        (state s k ss) (transferred (data_in_step_of t tags ends result)) (outputs out.new) (state s k ss) }
{
    // BUFFER, then NOCONN, CLOSED, as in each call that writes a header: a function of both would take one test out of four calls, and need a contract
    // of its own beside that of `reach`.
    if out.len() < HEADER_BYTES {
        return Err(Refusal::Buffer);
    }
    let l = reach(s, conn)?;
    if too_long(length as u64, longest_of(s, conn)) {
        return Err(Refusal::TooLong);
    }
    let sent = task_data_in::data_in(t, is_final, acknowledge, length)?;
    let own = data_fields::data_in(sent.header);
    write_header(s.window, l.next, own, out);
    Ok(sent)
}
