// Data that the initiator sends for a task: an R2T that asked for it is open until the Data-Out that answer it brought the whole. The open R2Ts
// lie in the two arrays that are lent with the record.
#![tactic(auto)]

ghost use Rattle.std.specs.Prelude.{◌≡◌, List, ℕ};
ghost use Rattle.task_book.specs.Steps.{data_out_ok, data_out_step};
ghost use Rattle.task.specs.Agree.{record_of, data_out_step_of};

use refusal::Refusal;
use request_header::DataOut;
use task::{DataOutAnswer, LAST_NUMBER, MOST_OPEN, OPEN_PLACES, Task};
use task_book::DataOutSequence;

// Takes a Data-Out that answers the oldest open R2T: where its data lies. With F that R2T is answered whole, and no longer open. FIELD where none is
// open, and as `data_out_ok` says.
#[tactic(auto, using(crate::proofs::Laws::ring),
// The rules.
unfolding(task_book::specs::Steps::data_out_step, task_book::specs::Steps::after_data_out,
// The open R2Ts.
task::specs::Agree::open_of))]
pub fn data_out(
    t: Task,
    tags: &[u32; OPEN_PLACES],
    ends: &[u64; OPEN_PLACES],
    initiator_task_tag: u32,
    p: DataOut,
    length: u32,
) -> DataOutAnswer
    ensures { data_out_step_of t tags.now ends.now result
        ≡ data_out_step (record_of t tags.now ends.now) initiator_task_tag p length }
{
    let first = t.first_open;
    let count = t.open_count;
    if count == 0 {
        return DataOutAnswer::from(Refusal::Field);
    }
    let oldest = (first % MOST_OPEN) as usize;
    if !data_out_ok(t, tags[oldest], ends[oldest], initiator_task_tag, p, length) {
        return DataOutAnswer::from(Refusal::Field);
    }
    let s = t.data_out;
    let offset = p.buffer_offset;
    let (data_sn, first_open, open_count) = if p.is_final {
        (0, (first % MOST_OPEN + 1) % MOST_OPEN, count - 1)
    } else {
        (s.data_sn + 1, first, count)
    };
    DataOutAnswer::Came {
        offset,
        count: length,
        sequence: DataOutSequence {
            came: offset as u64 + length as u64,
            data_sn,
            ..s
        },
        first_open,
        open_count,
    }
}

// Whether a Data-Out answers the R2T with this tag and end: the task's Initiator Task Tag, the R2T's tag, the number and the offset that are due, and
// F exactly at the R2T's end.
#[tactic(auto, unfolding(task_book::specs::Steps::data_out_ok))]
fn data_out_ok(
    t: Task,
    tag: u32,
    end: u64,
    initiator_task_tag: u32,
    p: DataOut,
    length: u32,
) -> bool
    ensures { (tags ends : List ℕ) → result ≡ data_out_ok (record_of t tags ends) (record { tag = tag; end = end }) initiator_task_tag p length }
{
    let given = t.given;
    let s = t.data_out;
    let offset = p.buffer_offset as u64;
    let after = offset + length as u64;
    ((initiator_task_tag == given.initiator_task_tag) & (p.target_transfer_tag == tag))
        & ((p.data_sn == s.data_sn) & (s.data_sn < LAST_NUMBER))
        & ((offset == s.came) & ((p.is_final & (after == end)) | (!p.is_final & (after < end))))
}
