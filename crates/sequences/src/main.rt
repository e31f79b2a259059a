// The worked sequences of paper 01, and the lost segment in four variants, run on sessions. Each line that is written is
// a call with its answer.
#![tactic(auto)]

mod commands;
mod pdu;
mod statuses;

use book::{Given, Opening};
use commands::{logout, numbers, offer, open, take};
use session::FreshSession;
use statuses::{acknowledge, resend, send, snack};
use std::io;
use std::io::Write;

// A fresh session at ErrorRecoveryLevel 1, with its first CmdSN and its first StatSN.
fn fresh(first: u32, stat_sn: u32) -> FreshSession {
    session::fresh(Given {
        first,
        level: 1,
        opening: Opening { stat_sn },
    })
}

// "Fresh at 0xfffffffe: MaxCmdSN 0x3d; offer 0x3d kept; 0x3e beyond; 0 kept, ExpCmdSN unmoved; then 0xfffffffe kept,
// ExpCmdSN 0xffffffff. Take; offer 0xfffffffe passed; 0xfffffffd beyond."
fn window_at_the_wrap<W: Write>(to: &mut W) -> io::Result<()> {
    writeln!(to, "# the window, fresh at 0xfffffffe")?;
    let mut f = fresh(0xffff_fffe, 1);
    numbers(to, &f)?;
    offer(to, &mut f, 0, 0x3d, 1)?;
    offer(to, &mut f, 0, 0x3e, 2)?;
    offer(to, &mut f, 0, 0, 3)?;
    numbers(to, &f)?;
    offer(to, &mut f, 0, 0xffff_fffe, 4)?;
    numbers(to, &f)?;
    take(to, &mut f)?;
    offer(to, &mut f, 0, 0xffff_fffe, 5)?;
    offer(to, &mut f, 0, 0xffff_fffd, 6)?;
    numbers(to, &f)
}

// "Ledger holding 0xfffffffe, 0xffffffff, 0: run (0,0) is three; (0,1) is one; (0xffffffff,0) two; (0xffffffff,3) SNACK."
fn ledger_at_the_wrap<W: Write>(to: &mut W) -> io::Result<()> {
    writeln!(to, "# the ledger, holding 0xfffffffe, 0xffffffff, 0")?;
    let mut f = fresh(1, 0xffff_fffe);
    send(to, &mut f, 0, 11)?;
    send(to, &mut f, 0, 12)?;
    send(to, &mut f, 0, 13)?;
    snack(to, &f, 0, 0, 0)?;
    snack(to, &f, 0, 0, 1)?;
    snack(to, &f, 0, 0xffff_ffff, 0)?;
    snack(to, &f, 0, 0xffff_ffff, 3)?;
    resends(to, &mut f)
}

fn resends<W: Write>(to: &mut W, f: &mut FreshSession) -> io::Result<()> {
    writeln!(to, "# a resend shows the window numbers of now")?;
    resend(to, f, 0, 0xffff_ffff)?;
    offer(to, f, 0, 1, 1)?;
    resend(to, f, 0, 0xffff_ffff)?;
    acknowledge(to, f, 0, 0)?;
    resend(to, f, 0, 0xffff_ffff)?;
    resend(to, f, 0, 0)
}

// A write is offered on connection 0, which dies, and again on connection 1 under the same number. Where before is set
// the write lies before the gap, else after it. Its first copy has ticket 1, its second ticket 2.
fn lost_segment<W: Write>(to: &mut W, before: bool, reason: u8) -> io::Result<()> {
    let number: u32 = if before { 1 } else { 2 };
    let mut f = fresh(1, 1);
    open(to, &mut f, 1, 1)?;
    offer(to, &mut f, 0, number, 1)?;
    logout(to, &mut f, 0, reason)?;
    offer(to, &mut f, 1, number, 2)?;
    if !before {
        offer(to, &mut f, 1, 1, 9)?;
        take(to, &mut f)?;
    }
    take(to, &mut f)?;
    take(to, &mut f)?;
    numbers(to, &f)
}

fn run_all<W: Write>(to: &mut W) -> io::Result<()> {
    window_at_the_wrap(to)?;
    ledger_at_the_wrap(to)?;
    writeln!(
        to,
        "# the lost segment, before the gap, reason 1: the first copy is kept, and handed out void"
    )?;
    lost_segment(to, true, 1)?;
    writeln!(
        to,
        "# the lost segment, before the gap, reason 2: the first copy is kept, and handed out without an origin"
    )?;
    lost_segment(to, true, 2)?;
    writeln!(
        to,
        "# the lost segment, after the gap, reason 1: the second copy is kept, and handed out"
    )?;
    lost_segment(to, false, 1)?;
    writeln!(
        to,
        "# the lost segment, after the gap, reason 2: the second copy is kept, and handed out"
    )?;
    lost_segment(to, false, 2)
}

fn main(rt: HostRuntime) -> io::Result<()> {
    let mut to = io::writer(&rt);
    run_all(&mut to)
}
