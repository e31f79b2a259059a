// A session whole: made fresh. The calls stand in session_commands, session_connections, session_send, session_statuses, session_snack
// and session_questions, over session_state. What is proved of every list of calls from a fresh session stands here (proofs/Tied).
#![tactic(auto)]

ghost use Rattle.session_state.specs.Agree.{IsFresh};
ghost use Rattle.session.specs.Fresh.{fresh_state};

use book::Given;
use ledger::{LEDGER_BYTES, LEDGER_SLOTS, Ledger};
use session_state::{Conn, Session};
use window::{FreshWindow, WINDOW_BYTES, WINDOW_SLOTS};

// A fresh session with its arrays.
#[derive(Clone, Copy)]
pub struct FreshSession {
    pub session: Session,
    pub headers: [u8; WINDOW_BYTES],
    pub tickets: [u32; WINDOW_SLOTS],
    pub statuses: [u8; LEDGER_BYTES],
    pub status_tickets: [u32; LEDGER_SLOTS],
}

// A fresh session, by what it is given: connection 0 is open, and nothing is held.
pub fn fresh(given: Given) -> FreshSession
    ensures { IsFresh given (fresh_state result) }
{
    let FreshWindow {
        window,
        headers,
        tickets,
    } = window::fresh(given.first);
    let open = Conn {
        is_open: true,
        ledger: ledger::opened(given.opening.stat_sn),
    };
    let closed = Conn {
        is_open: false,
        ledger: Ledger { next: 0, held: 0 },
    };
    FreshSession {
        session: Session {
            level: u32::from(given.level),
            window,
            conns: [open, closed, closed, closed],
        },
        headers,
        tickets,
        statuses: [0; LEDGER_BYTES],
        status_tickets: [0; LEDGER_SLOTS],
    }
}
