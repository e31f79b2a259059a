// The connections of a session: opening one, and the logout that closes it or them all. Neither call has a requirement of its caller: they
// refuse. What they give back of the session is what is new: a connection; a window, and which connections are closed.
#![tactic(auto)]

ghost use Rattle.std.specs.Prelude.{◌≡◌};
ghost use Rattle.window.specs.Agree.{Commands};
ghost use Rattle.ledger.specs.Agree.{Statuses};
ghost use Rattle.book.specs.Book.{Call, no_outputs};
ghost use Rattle.session_state.specs.Agree.{Did, state};
ghost use Rattle.session_connections.specs.Answer.{open_answer, logout_answer};
ghost use Rattle.session_connections.specs.After.{Closing, shut, closing, all_shut, one_shut, after_open, after_logout};

use book::Opening;
use refusal::Refusal;
use session_state::{Conn, Session, after_window, reach};
use window::{CONNECTIONS, CONNS, Window};
use window_logout::{CLOSE_SESSION, RECOVERY};

// What a logout closes: every connection of the session, or its own.
#[derive(Clone, Copy)]
pub enum Closes {
    Session,
    Connection,
}

// What a logout empties, voids and closes, with the window after it.
#[derive(Clone, Copy)]
pub struct LoggedOut {
    pub emptied: u32,
    pub voided: u32,
    pub closes: Closes,
    pub window: Window,
}

// Opens a connection with what it is given, its ledger empty. NOCONN, then OPEN.
#[tactic(auto,
// The book's step.
unfolding(book::specs::Book::book_step, book::specs::Book::lending, book::specs::Book::on_connection, book::specs::Book::on_open,
// The opening.
book::specs::Book::open_at,
// A connection, in the book and in the code.
book::specs::Book::conn_of, session_state::specs::Agree::ConnAgrees, session_state::specs::After::conn_at))]
pub fn open_connection(s: Session, conn: u32, given: Opening) -> Result<Conn, Refusal>
    ensures { (k : Commands) (ss : Statuses)
        → Did (Call.opening conn given) (state s k ss) (open_answer result) no_outputs (state (after_open s conn result) k ss) }
{
    let Err(f) = reach(s, conn) else {
        return Err(Refusal::Open);
    };
    match f {
        Refusal::Closed => Ok(Conn {
            is_open: true,
            ledger: ledger::opened(given.stat_sn),
        }),
        _ => Err(f),
    }
}

// What a logout closes: none is open after reason 0, else its own connection is closed.
fn closed_by(reason: u8) -> Closes
    ensures { Closing reason result }
{
    if reason == CLOSE_SESSION {
        Closes::Session
    } else {
        Closes::Connection
    }
}

// The effect of a logout on an open connection, with what it emptied and newly voided. NOCONN, CLOSED, then FIELD for a
// reason above 2.
#[tactic(auto,
// The book's step.
unfolding(book::specs::Book::book_step, book::specs::Book::lending, book::specs::Book::on_connection, book::specs::Book::on_open,
// The step on an open connection.
book::specs::Book::logout_by, book::specs::Book::logged_out,
// A connection, in the book and in the code.
book::specs::Book::conn_of, session_state::specs::Agree::ConnAgrees, session_state::specs::After::conn_at))]
pub fn logout(s: Session, conn: u32, reason: u8) -> Result<LoggedOut, Refusal>
    ensures { (k : Commands) (ss : Statuses)
        → Did (Call.logout conn reason) (state s k ss) (logout_answer result) no_outputs (state (after_logout s conn result) k ss) }
{
    reach(s, conn)?;
    if RECOVERY < reason {
        return Err(Refusal::Field);
    }
    let step = window_logout::logout(s.window, conn, reason);
    Ok(LoggedOut {
        emptied: step.emptied,
        voided: step.voided,
        closes: closed_by(reason),
        window: step.window,
    })
}

// A connection, closed; of its ledger nothing counts any more.
fn shut(k: Conn) -> Conn
    ensures { result ≡ shut k }
{
    Conn {
        is_open: false,
        ..k
    }
}

// The connections, all closed.
#[tactic(auto, using(place_map::proofs::Bits::four), unfolding(crate::specs::After::all_shut))]
fn all_shut(k: [Conn; CONNS]) -> [Conn; CONNS]
    ensures { result ≡ all_shut k }
{
    k.map(shut)
}

// The connections, that of a number closed.
#[tactic(auto, unfolding(crate::specs::After::one_shut))]
fn one_shut(conn: u32, k: [Conn; CONNS]) -> [Conn; CONNS]
    ensures { result ≡ one_shut conn k }
{
    let mut conns = k;
    if conn < CONNECTIONS {
        conns[conn as usize].is_open = false;
    }
    conns
}

fn closed_conns(closes: Closes, conn: u32, k: [Conn; CONNS]) -> [Conn; CONNS]
    ensures { result ≡ closing closes conn k }
{
    match closes {
        Closes::Session => all_shut(k),
        Closes::Connection => one_shut(conn, k),
    }
}

// The session after a logout.
pub fn after_logout(s: Session, conn: u32, r: Result<LoggedOut, Refusal>) -> Session
    ensures { result ≡ after_logout s conn r }
{
    match r {
        Err(_) => s,
        Ok(l) => Session {
            conns: closed_conns(l.closes, conn, s.conns),
            ..after_window(s, l.window)
        },
    }
}
