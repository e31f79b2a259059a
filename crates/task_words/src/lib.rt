// A task's record as words: twelve numbers of 32 bits and four of 64, which the caller keeps beside the two arrays of open R2Ts. A call that moves
// data loads them; what it changes of them is in `task_changes`.
#![tactic(auto)]

ghost use Rattle.std.specs.Prelude.{◌≡◌};
ghost use Rattle.task_words.specs.TaskWords.{task_of, task_numbers, task_wide};

use task::Task;
use task_book::{DataInSequence, DataOutSequence, Numbering, TaskGiven};

// The record that the words are. The two arrays travel apart, since they are two of C's `drawbevel_task`.
#[tactic(auto, unfolding(crate::specs::TaskWords::task_of))]
pub fn load(n: &[u32; 12], w: &[u64; 4]) -> Task
    ensures { result ≡ task_of n.now w.now }
{
    Task {
        given: TaskGiven {
            initiator_task_tag: n[0],
            lun: w[0],
            transfer_tag: n[1],
            max_burst_length: n[2],
            max_outstanding_r2t: n[3],
        },
        numbering: Numbering {
            sent: n[4],
            acknowledged: n[5],
            any_data_in: n[6] != 0,
            snack_tag: n[7],
        },
        data_in: DataInSequence {
            offset: w[1],
            burst: n[8],
        },
        data_out: DataOutSequence {
            asked: w[2],
            came: w[3],
            data_sn: n[9],
        },
        first_open: n[10],
        open_count: n[11],
    }
}

// Keeps the record in the words.
pub fn store(n: &mut [u32; 12], w: &mut [u64; 4], t: Task)
    ensures { (n.new ≡ task_numbers t) × (w.new ≡ task_wide t) × (task_of n.new w.new ≡ t) }
{
    *n = [
        t.given.initiator_task_tag,
        t.given.transfer_tag,
        t.given.max_burst_length,
        t.given.max_outstanding_r2t,
        t.numbering.sent,
        t.numbering.acknowledged,
        u32::from(t.numbering.any_data_in),
        t.numbering.snack_tag,
        t.data_in.burst,
        t.data_out.data_sn,
        t.first_open,
        t.open_count,
    ];
    *w = [
        t.given.lun,
        t.data_in.offset,
        t.data_out.asked,
        t.data_out.came,
    ];
}
