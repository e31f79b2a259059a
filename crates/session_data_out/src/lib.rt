// A Data-Out that comes to a session with data that was asked for. The call has no requirement of its caller: it refuses. It changes nothing in the
// session; what is new of the task's record is in the answer. Its two steps are there too, so that a caller whose record lies in words loads it only
// for a Data-Out that is judged good.
#![tactic(auto)]

ghost use Rattle.std.specs.Prelude.{◌≡◌, ◌≤◌, length};
ghost use Rattle.field.specs.Field.{be_at};
ghost use Rattle.request_header.specs.Request.{read_pdu, data_out_of, data_length_of};
ghost use Rattle.task_book.specs.Record.{Record};
ghost use Rattle.task_book.specs.Steps.{data_out_step};
ghost use Rattle.task.specs.Agree.{record_of, data_out_step_of};
ghost use Rattle.window.specs.Agree.{Commands};
ghost use Rattle.ledger.specs.Agree.{Statuses};
ghost use Rattle.book.specs.Book.{Call, Transfer, no_outputs};
ghost use Rattle.session_state.specs.Agree.{Did, state};
ghost use Rattle.session_state.specs.Transfer.{transferred};
ghost use Rattle.session_data_out.specs.Reading.{data_out_read, data_out_judged, JudgesDataOut};

use field::{HEADER_BYTES, be32};
use refusal::{Refusal, number_of};
use request_header::Limits;
use request_header::lengths::data_length;
use request_refusal::header_of;
use request_rules::data_out_ok;
use session_state::{Session, limits_of, reach};
use task::{DataOutAnswer, OPEN_PLACES, Task};

// Reading's refusals, and FIELD for another kind than a Data-Out; 0 where none is due. Not one function with `request_verdict::snack_header`: the rules are
// another kind's, and the answer is a number (`data_out_refusal` has why). So is the opcode (`request_kinds` has why).
fn read_refusal(limits: Limits, pdu: &[u8]) -> u32
    ensures { (result ≡ 0 → 48 ≤ length pdu.now)
        × ((x : Record) → data_out_judged x pdu.now result ≡ data_out_read x (read_pdu limits pdu.now)) }
{
    let header = match header_of(pdu, limits) {
        Ok(header) => header,
        Err(f) => return number_of(f) as u32,
    };
    if (header[0] % 64 != 0x05) | !data_out_ok(header) {
        return number_of(Refusal::Field) as u32;
    }
    0
}

// Judges a PDU that should be a Data-Out, before its task's record is looked at: NOCONN, CLOSED, reading's refusals, FIELD for another kind; 0 where none
// is due. A number and not a Result, which goes through memory: with it a Data-Out took twice as long.
pub fn data_out_refusal(s: Session, conn: u32, pdu: &[u8]) -> u32
    ensures { JudgesDataOut s conn pdu.now result }
{
    match reach(s, conn) {
        Err(f) => number_of(f) as u32,
        Ok(_) => {
            let limits = limits_of(s, conn);
            read_refusal(limits, pdu)
        }
    }
}

// What a Data-Out that is judged good brings: its fields, and where the task's record has its data. Judging gives a number back and not the header, so
// the caller says that there is one.
#[tactic(auto, using(crate::proofs::Outcomes::header_reads))]
pub fn data_out_in(
    t: Task,
    tags: &[u32; OPEN_PLACES],
    ends: &[u64; OPEN_PLACES],
    pdu: &[u8],
) -> DataOutAnswer
    requires { 48 ≤ length pdu.now }
    ensures { data_out_step_of t tags.now ends.now result
        ≡ data_out_step (record_of t tags.now ends.now) (be_at pdu.now 16 4) (data_out_of pdu.now)
        (data_length_of pdu.now) }
{
    let header = pdu.first_chunk::<HEADER_BYTES>().unwrap();
    let p = request_unnumbered::data_out(header);
    let initiator_task_tag = be32(header, 16);
    let length = data_length(header) as u32;
    task_out::data_out(t, tags, ends, initiator_task_tag, p, length)
}

// Takes a Data-Out that came on a connection for a task: where its data lies, and what is open then. NOCONN, CLOSED, reading's refusals, FIELD.
pub fn data_out(
    s: Session,
    conn: u32,
    t: Task,
    tags: &[u32; OPEN_PLACES],
    ends: &[u64; OPEN_PLACES],
    pdu: &[u8],
) -> DataOutAnswer
    ensures { (k : Commands) (ss : Statuses)
        → Did (Call.transfer conn (record_of t tags.now ends.now) (Transfer.data_out pdu.now))
        (state s k ss) (transferred (data_out_step_of t tags.now ends.now result)) no_outputs (state s k ss) }
{
    let f = data_out_refusal(s, conn, pdu);
    if f != 0 {
        return DataOutAnswer::Refused(f);
    }
    data_out_in(t, tags, ends, pdu)
}
