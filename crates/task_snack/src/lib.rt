// SNACKs for a task's data: a run of Data-In and R2T asked for anew, a DataACK, and R-Data, after which all that isn't acknowledged is sent anew.
#![tactic(auto)]

ghost use Rattle.std.specs.Prelude.{◌≡◌, List, ℕ};
ghost use Rattle.task_book.specs.Steps.{run, all_unacknowledged, snack_ok, data_run, data_acknowledged, data_restarted, data_snack_step};
ghost use Rattle.task.specs.Agree.{record_of, data_snack_step_of};

use field::NONE;
use refusal::Refusal;
use request_header::{SNACK_DATA_ACK, SNACK_DATA_OR_R2T, SNACK_STATUS, Snack};
use task::{DataSnackAnswer, Task};
use task_book::{DataInSequence, Numbering};

// A SNACK for a task's data: the run that is asked for, the numbers that a DataACK acknowledges, or all that is sent anew from this offset on.
// FIELD as `snack_ok` says; then SNACK at ErrorRecoveryLevel 0, and where the run isn't wholly sent and not acknowledged.
#[tactic(auto, unfolding(task_book::specs::Steps::data_snack_step, task_book::specs::Steps::data_snack_by))]
pub fn data_snack(
    t: Task,
    level: u32,
    initiator_task_tag: u32,
    offset: u32,
    p: Snack,
) -> DataSnackAnswer
    ensures { (tags ends : List ℕ) → data_snack_step_of t tags ends result
        ≡ data_snack_step (record_of t tags ends) level initiator_task_tag offset p }
{
    if !snack_ok(t, initiator_task_tag, p) {
        return DataSnackAnswer::from(Refusal::Field);
    }
    if level == 0 {
        return DataSnackAnswer::from(Refusal::Snack);
    }
    // By tests: a match compiles to a table of jumps, here and in `snack_ok`, and a SNACK took 22.6 ns and not 17.8.
    if p.snack_type == SNACK_DATA_OR_R2T {
        return data_run(t, p.beg_run, p.run_length);
    }
    if p.snack_type == SNACK_DATA_ACK {
        return data_acknowledged(t, p.beg_run);
    }
    data_restarted(t, offset, p)
}

// Whether a SNACK is for this task's data: a DataACK bears its transfer tag, the others its Initiator Task Tag, and a status SNACK is none.
#[tactic(auto, unfolding(task_book::specs::Steps::snack_ok))]
fn snack_ok(t: Task, initiator_task_tag: u32, p: Snack) -> bool
    ensures { (tags ends : List ℕ) → result ≡ snack_ok (record_of t tags ends) initiator_task_tag p }
{
    let given = t.given;
    let tag = p.target_transfer_tag;
    if p.snack_type == SNACK_DATA_ACK {
        (tag == given.transfer_tag) & (tag != NONE)
    } else {
        (p.snack_type != SNACK_STATUS) & (initiator_task_tag == given.initiator_task_tag)
    }
}

// The run that type 0 asks for, of the numbers sent and not acknowledged. BegRun and RunLength both 0 ask for all of them; else BegRun must
// be one, and RunLength 0 means from there to the end. Not one function with `ledger_held::run_of`: a ledger's numbers wrap, a task's don't.
#[tactic(auto, unfolding(task_book::specs::Steps::data_run, task_book::specs::Steps::run_from))]
fn data_run(t: Task, beg_run: u32, run_length: u32) -> DataSnackAnswer
    ensures { (tags ends : List ℕ) → data_snack_step_of t tags ends result ≡ data_run (record_of t tags ends) beg_run run_length }
{
    let n = t.numbering;
    let sent = n.sent;
    if (beg_run == 0) & (run_length == 0) {
        let (first, count) = all_unacknowledged(t);
        return DataSnackAnswer::Run { first, count };
    }
    if !(n.acknowledged..sent).contains(&beg_run) {
        return DataSnackAnswer::from(Refusal::Snack);
    }
    if run_length == 0 {
        return DataSnackAnswer::Run {
            first: beg_run,
            count: sent - beg_run,
        };
    }
    if run_length <= sent - beg_run {
        DataSnackAnswer::Run {
            first: beg_run,
            count: run_length,
        }
    } else {
        DataSnackAnswer::from(Refusal::Snack)
    }
}

// The run of all that are sent and not acknowledged: its first number, and how many.
#[tactic(auto, unfolding(task_book::specs::Steps::all_unacknowledged, task_book::specs::Steps::unacknowledged))]
fn all_unacknowledged(t: Task) -> (u32, u32)
    ensures { (tags ends : List ℕ) → run result.0 result.1 ≡ all_unacknowledged (record_of t tags ends) }
{
    let count = t.numbering.sent.saturating_sub(t.numbering.acknowledged);
    (t.numbering.sent - count, count)
}

// A DataACK: those before BegRun are acknowledged, and none that was is unacknowledged again.
#[tactic(auto, unfolding(task_book::specs::Steps::data_acknowledged, task_book::specs::Steps::acknowledged_to))]
fn data_acknowledged(t: Task, beg_run: u32) -> DataSnackAnswer
    ensures { (tags ends : List ℕ) → data_snack_step_of t tags ends result ≡ data_acknowledged (record_of t tags ends) beg_run }
{
    let n = t.numbering;
    if n.sent < beg_run {
        return DataSnackAnswer::from(Refusal::Snack);
    }
    DataSnackAnswer::Acknowledged {
        count: beg_run.saturating_sub(n.acknowledged),
        numbering: Numbering {
            acknowledged: n.acknowledged.max(beg_run),
            ..n
        },
    }
}

// Type 3, R-Data SNACK: all that is not acknowledged is sent anew, from the number after the acknowledged and the offset given on.
#[tactic(auto, unfolding(task_book::specs::Steps::data_restarted, task_book::specs::Steps::restarted_at))]
fn data_restarted(t: Task, offset: u32, p: Snack) -> DataSnackAnswer
    ensures { (tags ends : List ℕ) → data_snack_step_of t tags ends result ≡ data_restarted (record_of t tags ends) offset p }
{
    if (p.beg_run == 0) & (p.run_length == 0) {
        let (first, count) = all_unacknowledged(t);
        DataSnackAnswer::Restarted {
            first,
            count,
            numbering: Numbering {
                sent: t.numbering.acknowledged,
                snack_tag: p.target_transfer_tag,
                ..t.numbering
            },
            sequence: DataInSequence {
                offset: offset as u64,
                burst: 0,
            },
        }
    } else {
        DataSnackAnswer::from(Refusal::Snack)
    }
}
