// The R2Ts of a task: each asks for data, and is opened in the two arrays that are lent with the record.
#![tactic(auto)]

ghost use Rattle.std.specs.Prelude.{◌≡◌, List, ℕ};
ghost use Rattle.task_book.specs.Steps.{r2t_ok};
ghost use Rattle.task.specs.Agree.{record_of, R2TDone};
ghost use Rattle.task_r2t.specs.R2T.{R2TFits, Opened, R2TSent};

use field::NONE;
use refusal::Refusal;
use task::{LAST_NUMBER, MOST_OPEN, OFFSET_END, OPEN_PLACES, R2tSent, Task};
use task_book::{DataOutSequence, Numbering};

// Sends an R2T: its header, with the next number and the offset up to which was asked, and opens it. FIELD as `r2t_ok` says; a refusal leaves
// the arrays.
#[tactic(auto, unfolding(task_book::specs::Steps::r2t_step))]
pub fn r2t(
    t: Task,
    tag: u32,
    length: u32,
    tags: &mut [u32; OPEN_PLACES],
    ends: &mut [u64; OPEN_PLACES],
) -> Result<R2tSent, Refusal>
    ensures { R2TDone t tag length tags.old ends.old result tags.new ends.new }
{
    if r2t_ok(t, tag, length) {
        let sent = r2t_sent(t, tag, length);
        push(t, tag, length, tags, ends);
        Ok(sent)
    } else {
        Err(Refusal::Field)
    }
}

// Whether an R2T may be sent: its tag isn't reserved, its length is within 1 and MaxBurstLength, what it asks for ends by 2^32, fewer than
// MaxOutstandingR2T are open, and a number is left for it.
#[tactic(auto, using(crate::proofs::Laws::told), unfolding(task_book::specs::Steps::r2t_ok))]
fn r2t_ok(t: Task, tag: u32, length: u32) -> bool
    ensures { (tags ends : List ℕ) → result ≡ r2t_ok (record_of t tags ends) tag length }
{
    let given = t.given;
    let n = t.numbering;
    let s = t.data_out;
    let count = t.open_count;
    (tag != NONE)
        & ((0 < length) & (length <= given.max_burst_length))
        & (s.asked <= OFFSET_END - length as u64)
        & ((count < given.max_outstanding_r2t) & (count < MOST_OPEN))
        & (n.sent < LAST_NUMBER)
}

// The answer to an R2T that is sent, once it is opened in the arrays.
#[tactic(auto,
// What is promised.
unfolding(crate::specs::R2T::R2TSent, crate::specs::R2T::Opened,
// The rules.
task_book::specs::Steps::r2t_step, task_book::specs::Steps::r2t_header, task_book::specs::Steps::after_r2t,
// And more of it.
task_book::specs::Steps::numbered))]
fn r2t_sent(t: Task, tag: u32, length: u32) -> R2tSent
    requires { R2TFits t length }
    ensures { R2TSent t tag length result }
{
    let given = t.given;
    let n = t.numbering;
    let s = t.data_out;
    R2tSent {
        header: response_header::R2t {
            lun: given.lun,
            initiator_task_tag: given.initiator_task_tag,
            target_transfer_tag: tag,
            r2t_sn: n.sent,
            buffer_offset: s.asked as u32,
            desired_data_transfer_length: length,
        },
        numbering: Numbering {
            sent: n.sent + 1,
            ..n
        },
        sequence: DataOutSequence {
            asked: s.asked + length as u64,
            ..s
        },
        open_count: t.open_count + 1,
    }
}

// Opens an R2T: one more, at the place after the latest.
fn push(
    t: Task,
    tag: u32,
    length: u32,
    tags: &mut [u32; OPEN_PLACES],
    ends: &mut [u64; OPEN_PLACES],
)
    requires { R2TFits t length }
    ensures { Opened t tag length tags.old ends.old tags.new ends.new }
{
    let s = t.data_out;
    let first = t.first_open;
    let count = t.open_count;
    let at = ((first % MOST_OPEN + count) % MOST_OPEN) as usize;
    tags[at] = tag;
    ends[at] = s.asked + length as u64;
}
