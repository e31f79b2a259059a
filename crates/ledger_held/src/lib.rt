// The statuses that a ledger holds: acknowledged by an ExpStatSN, and asked for by a status SNACK.
#![tactic(auto)]

ghost use Rattle.std.specs.Prelude.{◌≡◌, ℕ};
ghost use Rattle.ledger.specs.Book.{LedgerBook, oldest, place, run_of};
ghost use Rattle.ledger.specs.Agree.{Statuses, Agrees, AcknowledgesAt};
ghost use Rattle.ledger.specs.Answer.{running, run_answer};

use ledger::{Ledger, Released, Run};

// The oldest number that is held, or the next one where none is.
#[tactic(auto, unfolding(ledger::specs::Book::oldest))]
fn oldest(l: Ledger) -> u32
    ensures { (c : ℕ) (ss : Statuses) (b : LedgerBook) → Agrees c l ss b → result ≡ oldest b }
{
    l.next.wrapping_sub(l.held)
}

// How far a number is from the oldest.
#[tactic(auto, unfolding(ledger::specs::Book::place))]
pub fn place_of(l: Ledger, number: u32) -> u32
    ensures { (c : ℕ) (ss : Statuses) (b : LedgerBook) → Agrees c l ss b → result ≡ place b number }
{
    number.wrapping_sub(oldest(l))
}

// Acknowledges by an ExpStatSN: the statuses before it are released, and counted.
#[tactic(auto, unfolding(ledger::specs::Answer::acknowledging, ledger::specs::Book::is_good))]
pub fn acknowledge(l: Ledger, exp_stat_sn: u32) -> Option<Released>
    ensures { (c : ℕ) (ss : Statuses) (b : LedgerBook) → Agrees c l ss b → AcknowledgesAt c ss result b exp_stat_sn }
{
    let count = place_of(l, exp_stat_sn);
    let held = l.held.checked_sub(count)?;
    let ledger = Ledger { held, ..l };
    Some(Released { count, ledger })
}

// The run that a status SNACK asks for. BegRun and RunLength both 0 ask for all that is held; else BegRun must be held,
// and RunLength 0 means from there to the end.
pub fn run_of(l: Ledger, beg_run: u32, run_length: u32) -> Option<Run>
    ensures { (c : ℕ) (ss : Statuses) (b : LedgerBook) → Agrees c l ss b → run_answer result ≡ running (run_of b beg_run run_length) }
{
    let held = l.held;
    if (beg_run == 0) & (run_length == 0) {
        return Some(Run {
            first: oldest(l),
            count: held,
        });
    }
    let place = place_of(l, beg_run);
    if held <= place {
        return None;
    }
    let left = held - place;
    let count = if run_length == 0 { left } else { run_length };
    // Not by then_some: the run would be copied as one value, and a SNACK took a tenth more instructions.
    if count <= left {
        Some(Run {
            first: beg_run,
            count,
        })
    } else {
        None
    }
}
