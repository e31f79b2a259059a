// The Data-In that are sent for a task, over its record.
#![tactic(auto)]

ghost use Rattle.std.specs.Prelude.{◌≡◌, List, ℕ, ◌+◌, ◌<◌, ◌≤◌};
ghost use Rattle.field.specs.Field.{pick};
ghost use Rattle.task_book.specs.Record.{last_number, offset_end};
ghost use Rattle.task_book.specs.Steps.{data_in_ok, data_in_header, data_in_step};
ghost use Rattle.task.specs.Agree.{record_of, data_in_step_of};

use field::NONE;
use refusal::Refusal;
use response_header::DataIn;
use task::{DataInSent, LAST_NUMBER, OFFSET_END, Task};
use task_book::{DataInSequence, Numbering};

// Sends a Data-In: its header, with the next number and the next offset. FIELD as `data_in_ok` says.
#[tactic(auto, unfolding(task_book::specs::Steps::data_in_step, task_book::specs::Steps::after_data_in, task_book::specs::Steps::numbered))]
pub fn data_in(
    t: Task,
    is_final: bool,
    acknowledge: bool,
    length: u32,
) -> Result<DataInSent, Refusal>
    ensures { (tags ends : List ℕ) → data_in_step_of t tags ends result ≡ data_in_step (record_of t tags ends) is_final acknowledge length }
{
    if data_in_ok(t, acknowledge, length) {
        let header = data_in_header(t, is_final, acknowledge, length);
        let n = t.numbering;
        let s = t.data_in;
        let sequence = after_data_in(s, is_final, length);
        Ok(DataInSent {
            header,
            numbering: Numbering {
                sent: n.sent + 1,
                any_data_in: true,
                ..n
            },
            sequence,
        })
    } else {
        Err(Refusal::Field)
    }
}

// Whether a Data-In may be sent: the burst with it stays within MaxBurstLength, its bytes lie below 2^32, a number is left for it, and A has a
// transfer tag to bear.
#[tactic(auto, unfolding(task_book::specs::Steps::data_in_ok))]
fn data_in_ok(t: Task, acknowledge: bool, length: u32) -> bool
    ensures { (tags ends : List ℕ) → result ≡ data_in_ok (record_of t tags ends) acknowledge length }
{
    let given = t.given;
    let n = t.numbering;
    let s = t.data_in;
    let burst = s.burst as u64 + length as u64;
    (burst <= given.max_burst_length as u64)
        & ((s.offset < OFFSET_END) & (s.offset <= OFFSET_END - length as u64))
        & (n.sent < LAST_NUMBER)
        & !(acknowledge & (given.transfer_tag == NONE))
}

// With A the LUN and the transfer tag, which are reserved without it.
#[tactic(auto, unfolding(task_book::specs::Steps::data_in_header))]
fn data_in_header(t: Task, is_final: bool, acknowledge: bool, length: u32) -> DataIn
    requires { t.data_in.offset < offset_end }
    ensures { (tags ends : List ℕ) → result ≡ data_in_header (record_of t tags ends) is_final acknowledge length }
{
    let given = t.given;
    let n = t.numbering;
    let s = t.data_in;
    let (lun, target_transfer_tag) = if acknowledge {
        (given.lun, given.transfer_tag)
    } else {
        (0, NONE)
    };
    DataIn {
        is_final,
        acknowledge,
        data_segment_length: length,
        lun,
        initiator_task_tag: given.initiator_task_tag,
        target_transfer_tag,
        data_sn: n.sent,
        buffer_offset: s.offset as u32,
    }
}

// Where the next Data-In starts: F ends the burst.
fn after_data_in(s: DataInSequence, is_final: bool, length: u32) -> DataInSequence
    requires { (s.offset + length ≤ offset_end) × (s.burst + length ≤ last_number) }
    ensures { (result.offset ≡ s.offset + length) × (result.burst ≡ pick is_final 0 (s.burst + length)) }
{
    DataInSequence {
        offset: s.offset + length as u64,
        burst: if is_final { 0 } else { s.burst + length },
    }
}
