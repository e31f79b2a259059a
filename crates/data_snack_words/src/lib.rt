// The call that takes a SNACK for data, on words: a session as its numbers and maps, which stay, and a task's record as its numbers.
#![tactic(auto)]

ghost use Rattle.std.specs.Prelude.{List, ℕ};
ghost use Rattle.window.specs.Agree.{Commands};
ghost use Rattle.ledger.specs.Agree.{Statuses};
ghost use Rattle.book.specs.Book.{Transfer, no_outputs};
ghost use Rattle.session_state.specs.Agree.{state};
ghost use Rattle.session_words.specs.State.{session_of};
ghost use Rattle.task_words.specs.TaskWords.{task_words};
ghost use Rattle.transfer_words.specs.Moves.{Moves};

use session_words::load;
use task::DataSnackAnswer;
use task_changes::store_data_in;

// Takes a SNACK for data that came.
pub fn data_snack(
    n: &[u32; 15],
    m: &[u64; 6],
    conn: u32,
    pdu: &[u8],
    task: &mut [u32; 12],
    wide: &mut [u64; 4],
    offset: u32,
    answer: &mut [u32; 4],
)
    ensures { (k : Commands) (ss : Statuses) (tags ends : List ℕ)
        → Moves conn (Transfer.data_snack offset pdu.now)
        (state (session_of n.now m.now) k ss)
        (task_words task.old wide.old tags ends)
        answer.new no_outputs
        (task_words task.new wide.new tags ends) }
{
    let s = load(n, m);
    let t = task_words::load(task, wide);
    match session_data_snack::data_snack(s, conn, t, offset, pdu) {
        DataSnackAnswer::Refused(number) => {
            *answer = answer_words::refused_by(number);
        }
        DataSnackAnswer::Run { first, count } => {
            *answer = answer_words::data_run(first, count);
        }
        DataSnackAnswer::Acknowledged { count, numbering } => {
            let sequence = t.data_in;
            store_data_in(task, wide, numbering, sequence);
            *answer = answer_words::data_acknowledged(count);
        }
        DataSnackAnswer::Restarted {
            first,
            count,
            numbering,
            sequence,
        } => {
            store_data_in(task, wide, numbering, sequence);
            *answer = answer_words::data_run(first, count);
        }
    }
}
