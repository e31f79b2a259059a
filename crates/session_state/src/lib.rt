// A session between calls: the command window and four connections, each with its status ledger. What a call changes is this small
// struct by value and four arrays that the caller lends, each call only those that it touches: the window's headers and tickets, and
// the headers and tickets of the statuses.
#![tactic(auto)]

ghost use Rattle.std.specs.Prelude.{◌≡◌};
ghost use Rattle.session_state.specs.After.{after_window, after_conn, after_ledger};
ghost use Rattle.session_state.specs.Limits.{limits_of, longest_of};
ghost use Rattle.session_state.specs.Reach.{ReachesAt, Reaches};

use ledger::Ledger;
use refusal::Refusal;
use request_header::{LIMITS, Limits};
use response_header::MAX_DATA;
use window::{CONNECTIONS, CONNS, Window};

// A connection. Of one that is not open only that counts. A flag beside the ledger, and not an Option of it: a closed one keeps its numbers (`shut`,
// `session_numbers`), and the edits `session_connections/reopened_keeps_ledger` and `session_state/ledger_opens` are of a closed one's ledger.
#[derive(Clone, Copy)]
pub struct Conn {
    pub is_open: bool,
    pub ledger: Ledger,
}

#[derive(Clone, Copy)]
pub struct Session {
    // ErrorRecoveryLevel.
    pub level: u32,
    pub window: Window,
    pub conns: [Conn; CONNS],
}

// A connection's ledger, or that the connection is closed. The ledger is made of its numbers and not copied, or the compiler would keep all
// four in memory to copy one.
fn by_conn(k: Conn) -> Result<Ledger, Refusal>
    ensures { ReachesAt k result }
{
    if k.is_open {
        let l = k.ledger;
        Ok(Ledger {
            next: l.next,
            held: l.held,
        })
    } else {
        Err(Refusal::Closed)
    }
}

// The ledger of the connection that a call names. NOCONN, CLOSED. The numbers stay written out: by `get` all four connections go to memory first, and a
// SNACK took 7 more of 167 instructions.
#[tactic(auto, unfolding(crate::specs::After::conn_at))]
pub fn reach(s: Session, conn: u32) -> Result<Ledger, Refusal>
    ensures { Reaches s conn result }
{
    let conns = s.conns;
    match conn {
        0 => by_conn(conns[0]),
        1 => by_conn(conns[1]),
        2 => by_conn(conns[2]),
        3 => by_conn(conns[3]),
        _ => Err(Refusal::NoConn),
    }
}

// What PDUs on a connection are read by: the one place where reading gets its limits.
pub fn limits_of(s: Session, conn: u32) -> Limits
    ensures { result ≡ limits_of s conn }
{
    LIMITS
}

// The longest data segment that is written on a connection.
pub fn longest_of(s: Session, conn: u32) -> u32
    ensures { result ≡ longest_of s conn }
{
    MAX_DATA
}

// The session with another window.
pub fn after_window(s: Session, w: Window) -> Session
    ensures { result ≡ after_window s w }
{
    Session { window: w, ..s }
}

// The session with another connection of a number; where there is none of it, as it was.
#[tactic(auto, unfolding(crate::specs::After::after_conn))]
pub fn after_conn(s: Session, conn: u32, k: Conn) -> Session
    ensures { result ≡ after_conn s conn k }
{
    let mut conns = s.conns;
    if conn < CONNECTIONS {
        conns[conn as usize] = k;
    }
    Session { conns, ..s }
}

// The session with another ledger of a connection; where there is none of that number, as it was.
#[tactic(auto, unfolding(crate::specs::After::after_conn, crate::specs::After::conn_at))]
pub fn after_ledger(s: Session, conn: u32, l: Ledger) -> Session
    ensures { result ≡ after_ledger s conn l }
{
    if conn < CONNECTIONS {
        let conns = s.conns;
        let k = conns[conn as usize];
        return after_conn(s, conn, Conn { ledger: l, ..k });
    }
    s
}
