// The calls that ask for held statuses, on words: a session as its numbers and maps, and the arrays of the statuses' headers and tickets. A send is
// in `send_words`.
#![tactic(auto)]

ghost use Rattle.std.specs.Prelude.{List, ℕ};
ghost use Rattle.window.specs.Agree.{Commands};
ghost use Rattle.ledger.specs.Agree.{Statuses, statuses_in};
ghost use Rattle.book.specs.Book.{Call, outputs, no_outputs};
ghost use Rattle.answer_words.specs.Answer.{packed};
ghost use Rattle.task_words.specs.TaskWords.{task_words, record_in};
ghost use Rattle.call_words.specs.Session.{session_words, Said};

use answer_words::DONE;
use ledger::{LEDGER_BYTES, LEDGER_SLOTS, Released};
use session_changes::store_ledger;
use session_words::load;

// Releases the statuses before an ExpStatSN.
pub fn acknowledge(n: &mut [u32; 15], m: &mut [u64; 6], conn: u32, exp_stat_sn: u32) -> u64
    ensures { (k : Commands) (ss : Statuses)
        → Said (Call.acknowledge conn exp_stat_sn)
        (session_words n.old m.old k ss)
        (packed result) no_outputs
        (session_words n.new m.new k ss) }
{
    let s = load(n, m);
    match session_statuses::acknowledge(s, conn, exp_stat_sn) {
        Err(f) => answer_words::pack_refused(f),
        Ok(Released { count, ledger }) => {
            store_ledger(n, conn, ledger);
            answer_words::pack(DONE, count)
        }
    }
}

// The run that a status SNACK asks for.
pub fn snack(n: &[u32; 15], m: &[u64; 6], conn: u32, pdu: &[u8], answer: &mut [u32; 4])
    ensures { (k : Commands) (ss : Statuses)
        → Said (Call.snack conn pdu.now)
        (session_words n.now m.now k ss)
        answer.new no_outputs
        (session_words n.now m.now k ss) }
{
    let s = load(n, m);
    let a = session_snack::snack(s, conn, pdu);
    *answer = call_answer_words::run(a);
}

// Sends a held status again, its header with the current window numbers, and of a SCSI Response what it takes of the record, into the first 48
// bytes of out.
pub fn resend(
    n: &[u32; 15],
    m: &[u64; 6],
    statuses: &[u8; LEDGER_BYTES],
    status_tickets: &[u32; LEDGER_SLOTS],
    task: &[u32; 12],
    wide: &[u64; 4],
    conn: u32,
    stat_sn: u32,
    out: &mut [u8],
) -> u64
    ensures { (k : Commands) (tags ends : List ℕ)
        → Said (Call.resend conn stat_sn (record_in (task_words task.now wide.now tags ends)) (outputs out.old))
        (session_words n.now m.now k (statuses_in statuses.now status_tickets.now))
        (packed result) (outputs out.new)
        (session_words n.now m.now k (statuses_in statuses.now status_tickets.now)) }
{
    let s = load(n, m);
    let t = task_words::load(task, wide);
    let a = session_statuses::resend(s, conn, stat_sn, t, statuses, status_tickets, out);
    call_answer_words::resent(a)
}
