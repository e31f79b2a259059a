// A SNACK that comes to a session for data that was sent. The call has no requirement of its caller: it refuses. It changes nothing in the session; what
// is new of the task's record is in the answer.
#![tactic(auto)]

ghost use Rattle.std.specs.Prelude.{◌≡◌, List, ℕ};
ghost use Rattle.field.specs.Field.{be_at};
ghost use Rattle.request_header.specs.Request.{read_pdu, snack_of};
ghost use Rattle.task_book.specs.Steps.{data_snack_step};
ghost use Rattle.task.specs.Agree.{record_of, data_snack_step_of};
ghost use Rattle.window.specs.Agree.{Commands};
ghost use Rattle.ledger.specs.Agree.{Statuses};
ghost use Rattle.book.specs.Book.{Call, Transfer, no_outputs};
ghost use Rattle.session_state.specs.Agree.{Did, state};
ghost use Rattle.session_state.specs.Transfer.{transferred};
ghost use Rattle.session_data_snack.specs.Reading.{data_snack_read};

use field::{HEADER_BYTES, be32};
use request_header::Limits;
use request_verdict::snack_header;
use session_state::{Session, limits_of, reach};
use task::{DataSnackAnswer, Task};

// What a good SNACK asks for of a task's data, by its fields.
fn data_snack_in(level: u32, t: Task, offset: u32, header: &[u8; HEADER_BYTES]) -> DataSnackAnswer
    ensures { (tags ends : List ℕ) → data_snack_step_of t tags ends result
        ≡ data_snack_step (record_of t tags ends) level (be_at header.now 16 4) offset (snack_of header.now) }
{
    let p = request_unnumbered::snack(header);
    let initiator_task_tag = be32(header, 16);
    task_snack::data_snack(t, level, initiator_task_tag, offset, p)
}

// Reads a PDU that should be a SNACK for a task's data: reading's refusals, FIELD for another kind, then FIELD and SNACK as the task's record has it.
fn read_data_snack(limits: Limits, level: u32, t: Task, offset: u32, pdu: &[u8]) -> DataSnackAnswer
    ensures { (tags ends : List ℕ) → data_snack_step_of t tags ends result
        ≡ data_snack_read (record_of t tags ends) level offset (read_pdu limits pdu.now) }
{
    match snack_header(pdu, limits) {
        Ok(header) => data_snack_in(level, t, offset, header),
        Err(f) => DataSnackAnswer::from(f),
    }
}

// A SNACK that came on a connection for a task's data: the run that it asks for, or how many numbers it acknowledges; the offset is where the data begins
// that is sent anew. NOCONN, CLOSED, reading's refusals, FIELD, SNACK.
pub fn data_snack(s: Session, conn: u32, t: Task, offset: u32, pdu: &[u8]) -> DataSnackAnswer
    ensures { (k : Commands) (ss : Statuses) (tags ends : List ℕ)
        → Did (Call.transfer conn (record_of t tags ends) (Transfer.data_snack offset pdu.now))
        (state s k ss) (transferred (data_snack_step_of t tags ends result)) no_outputs (state s k ss) }
{
    match reach(s, conn) {
        Err(f) => DataSnackAnswer::from(f),
        Ok(_) => {
            let limits = limits_of(s, conn);
            read_data_snack(limits, s.level, t, offset, pdu)
        }
    }
}
