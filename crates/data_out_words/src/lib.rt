// The call that takes a Data-Out, on words: a session as its numbers and maps, which stay, and a task's record as its numbers and the arrays of its
// open R2Ts.
#![tactic(auto)]

ghost use Rattle.window.specs.Agree.{Commands};
ghost use Rattle.ledger.specs.Agree.{Statuses};
ghost use Rattle.book.specs.Book.{Transfer, no_outputs};
ghost use Rattle.session_state.specs.Agree.{state};
ghost use Rattle.session_words.specs.State.{session_of};
ghost use Rattle.task_words.specs.TaskWords.{task_words};
ghost use Rattle.transfer_words.specs.Moves.{Moves};

use session_words::load;
use task::{DataOutAnswer, OPEN_PLACES};
use task_changes::store_data_out;

// Takes a Data-Out that came.
pub fn data_out(
    n: &[u32; 15],
    m: &[u64; 6],
    conn: u32,
    pdu: &[u8],
    task: &mut [u32; 12],
    wide: &mut [u64; 4],
    tags: &[u32; OPEN_PLACES],
    ends: &[u64; OPEN_PLACES],
    answer: &mut [u32; 4],
)
    ensures { (k : Commands) (ss : Statuses)
        → Moves conn (Transfer.data_out pdu.now)
        (state (session_of n.now m.now) k ss)
        (task_words task.old wide.old tags.now ends.now)
        answer.new no_outputs
        (task_words task.new wide.new tags.now ends.now) }
{
    let s = load(n, m);
    let f = session_data_out::data_out_refusal(s, conn, pdu);
    if f != 0 {
        *answer = answer_words::refused_by(f);
        return;
    }
    let t = task_words::load(task, wide);
    match session_data_out::data_out_in(t, tags, ends, pdu) {
        DataOutAnswer::Refused(number) => {
            *answer = answer_words::refused_by(number);
        }
        DataOutAnswer::Came {
            offset,
            count,
            sequence,
            first_open,
            open_count,
        } => {
            store_data_out(task, wide, sequence, first_open, open_count);
            *answer = answer_words::came(offset, count, open_count);
        }
    }
}
