// The calls on commands and connections, each with a line that says what was called and what came.
use crate::pdu::write_command;
use book::Opening;
use session::FreshSession;
use session_commands::Offered;
use session_connections::after_logout;
use session_state::{after_conn, after_window};
use std::io;
use std::io::Write;
use window::Taken;

// The word for what became of an offer.
fn word_of(o: Offered) -> &'static str {
    match o {
        Offered::Immediate => "immediate",
        Offered::Numbered(window::Offered::Kept) => "kept",
        Offered::Numbered(window::Offered::Duplicate) => "duplicate",
        Offered::Numbered(window::Offered::Passed) => "passed",
        Offered::Numbered(window::Offered::Beyond) => "beyond",
    }
}

pub(crate) fn offer<W: Write>(
    to: &mut W,
    f: &mut FreshSession,
    conn: u32,
    number: u32,
    ticket: u32,
) -> io::Result<()> {
    write!(to, "offer {conn} number 0x{number:08x} ticket {ticket}: ")?;
    let pdu = write_command(number, ticket);
    match session_commands::offer(
        f.session,
        conn,
        ticket,
        &pdu,
        &mut f.headers,
        &mut f.tickets,
    ) {
        Err(e) => writeln!(to, "{e}"),
        Ok(step) => {
            f.session = after_window(f.session, step.window);
            writeln!(to, "{}", word_of(step.answer))
        }
    }
}

fn put_taken<W: Write>(to: &mut W, t: Taken) -> io::Result<()> {
    match t {
        Taken::Nothing => writeln!(to, "nothing"),
        Taken::Void(n) => writeln!(to, "void 0x{n:08x}"),
        Taken::Command {
            number,
            ticket,
            origin,
        } => {
            write!(to, "out 0x{number:08x} ticket {ticket} origin ")?;
            match origin {
                None => writeln!(to, "none"),
                Some(c) => writeln!(to, "{c}"),
            }
        }
    }
}

pub(crate) fn take<W: Write>(to: &mut W, f: &mut FreshSession) -> io::Result<()> {
    write!(to, "take: ")?;
    let mut out = [0u8; 48];
    match session_commands::take(f.session, &f.headers, &f.tickets, &mut out) {
        Err(e) => writeln!(to, "{e}"),
        Ok(step) => {
            f.session = after_window(f.session, step.window);
            put_taken(to, step.answer)
        }
    }
}

// ExpCmdSN and MaxCmdSN.
pub(crate) fn numbers<W: Write>(to: &mut W, f: &FreshSession) -> io::Result<()> {
    let n = session_questions::window_numbers(f.session);
    writeln!(
        to,
        "window: expcmdsn 0x{:08x} maxcmdsn 0x{:08x}",
        n.exp_cmd_sn, n.max_cmd_sn
    )
}

pub(crate) fn open<W: Write>(
    to: &mut W,
    f: &mut FreshSession,
    conn: u32,
    stat_sn: u32,
) -> io::Result<()> {
    write!(to, "open {conn}: ")?;
    match session_connections::open_connection(f.session, conn, Opening { stat_sn }) {
        Err(e) => writeln!(to, "{e}"),
        Ok(k) => {
            f.session = after_conn(f.session, conn, k);
            writeln!(to, "opened")
        }
    }
}

pub(crate) fn logout<W: Write>(
    to: &mut W,
    f: &mut FreshSession,
    conn: u32,
    reason: u8,
) -> io::Result<()> {
    write!(to, "logout {conn} reason {reason}: ")?;
    let r = session_connections::logout(f.session, conn, reason);
    f.session = after_logout(f.session, conn, r);
    match r {
        Err(e) => writeln!(to, "{e}"),
        Ok(l) => writeln!(to, "emptied {} voided {}", l.emptied, l.voided),
    }
}
