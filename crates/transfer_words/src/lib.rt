// The making of a record, and the calls that send for a task, on words: a session as its numbers and maps, which stay, and a task's record as its
// numbers and the arrays of its open R2Ts. What comes for a task is in `data_out_words`.
#![tactic(auto)]

ghost use Rattle.std.specs.Prelude.{List, ℕ};
ghost use Rattle.window.specs.Agree.{Commands};
ghost use Rattle.ledger.specs.Agree.{Statuses};
ghost use Rattle.book.specs.Book.{Transfer, outputs};
ghost use Rattle.session_state.specs.Agree.{state};
ghost use Rattle.session_words.specs.State.{session_of};
ghost use Rattle.task_words.specs.TaskWords.{task_words};
ghost use Rattle.answer_words.specs.Answer.{packed};
ghost use Rattle.transfer_words.specs.Moves.{Moves, Makes, task_given_of};

use answer_words::DONE;
use session_words::load;
use task::OPEN_PLACES;
use task_book::TaskGiven;
use task_changes::{store_data_in, store_r2t};

// Makes a record, with nothing open: the arrays of open R2Ts may hold anything.
pub fn make(
    task: &mut [u32; 12],
    wide: &mut [u64; 4],
    initiator_task_tag: u32,
    lun: u64,
    transfer_tag: u32,
    immediate: u32,
    max_burst_length: u32,
    max_outstanding_r2t: u16,
) -> u64
    ensures { (tags ends : List ℕ)
        → Makes (task_given_of initiator_task_tag lun transfer_tag max_burst_length max_outstanding_r2t) immediate
        (task_words task.old wide.old tags ends) (packed result) (task_words task.new wide.new tags ends) }
{
    let given = TaskGiven {
        initiator_task_tag,
        lun,
        transfer_tag,
        max_burst_length,
        max_outstanding_r2t: max_outstanding_r2t as u32,
    };
    match task::make(given, immediate) {
        Err(f) => answer_words::pack_refused(f),
        Ok(t) => {
            task_words::store(task, wide, t);
            answer_words::pack(DONE, 0)
        }
    }
}

// Sends a Data-In, its header into the first 48 bytes of out.
pub fn data_in(
    n: &[u32; 15],
    m: &[u64; 6],
    task: &mut [u32; 12],
    wide: &mut [u64; 4],
    conn: u32,
    is_final: bool,
    acknowledge: bool,
    length: u32,
    out: &mut [u8],
) -> u64
    ensures { (k : Commands) (ss : Statuses) (tags ends : List ℕ)
        → Moves conn (Transfer.data_in is_final acknowledge length (outputs out.old))
        (state (session_of n.now m.now) k ss)
        (task_words task.old wide.old tags ends)
        (packed result) (outputs out.new)
        (task_words task.new wide.new tags ends) }
{
    let s = load(n, m);
    let t = task_words::load(task, wide);
    match session_data_in::data_in(s, conn, t, is_final, acknowledge, length, out) {
        Err(f) => answer_words::pack_refused(f),
        Ok(sent) => {
            store_data_in(task, wide, sent.numbering, sent.sequence);
            answer_words::pack(DONE, 0)
        }
    }
}

// Sends an R2T, its header into the first 48 bytes of out.
pub fn r2t(
    n: &[u32; 15],
    m: &[u64; 6],
    task: &mut [u32; 12],
    wide: &mut [u64; 4],
    tags: &mut [u32; OPEN_PLACES],
    ends: &mut [u64; OPEN_PLACES],
    conn: u32,
    tag: u32,
    length: u32,
    out: &mut [u8],
) -> u64
    ensures { (k : Commands) (ss : Statuses)
        → Moves conn (Transfer.r2t tag length (outputs out.old))
        (state (session_of n.now m.now) k ss)
        (task_words task.old wide.old tags.old ends.old)
        (packed result) (outputs out.new)
        (task_words task.new wide.new tags.new ends.new) }
{
    let s = load(n, m);
    let t = task_words::load(task, wide);
    match session_r2t::r2t(s, conn, t, tag, length, tags, ends, out) {
        Err(f) => answer_words::pack_refused(f),
        Ok(sent) => {
            store_r2t(task, wide, sent.numbering, sent.sequence, sent.open_count);
            answer_words::pack(DONE, 0)
        }
    }
}
