// The calls on statuses, each with a line that says what was called and what came.
use crate::pdu::status_snack;
use field::{NONE, be32};
use refusal::Refusal;
use response_header::{Reject, Response};
use session::FreshSession;
use session_state::after_ledger;
use std::io;
use std::io::Write;
use task::Task;
use task_book::TaskGiven;

// A fresh record, with the defaults of MaxBurstLength and MaxOutstandingR2T. The statuses here are of no task: its ITT is 0.
fn fresh_task() -> Result<Task, Refusal> {
    task::make(
        TaskGiven {
            initiator_task_tag: 0,
            lun: 0,
            transfer_tag: NONE,
            max_burst_length: 262144,
            max_outstanding_r2t: 1,
        },
        0,
    )
}

// Sends a Reject with reason 4; gives its StatSN.
fn send_reject(f: &mut FreshSession, conn: u32, ticket: u32) -> Result<u32, Refusal> {
    let t = fresh_task()?;
    let mut out = [0u8; 48];
    let sent = session_send::send(
        f.session,
        conn,
        ticket,
        Response::Reject(Reject { reason: 4 }),
        t,
        &mut out,
        &mut f.statuses,
        &mut f.status_tickets,
    )?;
    if let Some(ledger) = sent.ledger {
        f.session = after_ledger(f.session, conn, ledger);
    }
    Ok(sent.stat_sn)
}

pub(crate) fn send<W: Write>(
    to: &mut W,
    f: &mut FreshSession,
    conn: u32,
    ticket: u32,
) -> io::Result<()> {
    write!(to, "send {conn}: ")?;
    match send_reject(f, conn, ticket) {
        Err(e) => writeln!(to, "{e}"),
        Ok(n) => writeln!(to, "sent 0x{n:08x}"),
    }
}

pub(crate) fn acknowledge<W: Write>(
    to: &mut W,
    f: &mut FreshSession,
    conn: u32,
    exp_stat_sn: u32,
) -> io::Result<()> {
    write!(to, "acknowledge {conn} 0x{exp_stat_sn:08x}: ")?;
    match session_statuses::acknowledge(f.session, conn, exp_stat_sn) {
        Err(e) => writeln!(to, "{e}"),
        Ok(x) => {
            f.session = after_ledger(f.session, conn, x.ledger);
            writeln!(to, "acknowledged {}", x.count)
        }
    }
}

pub(crate) fn snack<W: Write>(
    to: &mut W,
    f: &FreshSession,
    conn: u32,
    beg_run: u32,
    run_length: u32,
) -> io::Result<()> {
    write!(to, "snack {conn} (0x{beg_run:08x}, {run_length}): ")?;
    match session_snack::snack(f.session, conn, &status_snack(beg_run, run_length)) {
        Err(e) => writeln!(to, "{e}"),
        Ok(run) => writeln!(to, "run 0x{:08x} {}", run.first, run.count),
    }
}

// Sends a held status again, with a fresh record; gives its ticket.
fn resend_into(
    f: &FreshSession,
    conn: u32,
    stat_sn: u32,
    out: &mut [u8; 48],
) -> Result<u32, Refusal> {
    let t = fresh_task()?;
    session_statuses::resend(
        f.session,
        conn,
        stat_sn,
        t,
        &f.statuses,
        &f.status_tickets,
        out,
    )
}

// Of what is resent the ticket, and of its header the numbers from StatSN to MaxCmdSN.
pub(crate) fn resend<W: Write>(
    to: &mut W,
    f: &FreshSession,
    conn: u32,
    stat_sn: u32,
) -> io::Result<()> {
    write!(to, "resend {conn} 0x{stat_sn:08x}: ")?;
    let mut out = [0u8; 48];
    match resend_into(f, conn, stat_sn, &mut out) {
        Err(e) => writeln!(to, "{e}"),
        Ok(ticket) => writeln!(
            to,
            "resent ticket {ticket} numbers 0x{:08x} 0x{:08x} 0x{:08x}",
            be32(&out, 24),
            be32(&out, 28),
            be32(&out, 32)
        ),
    }
}
