// Plays the login requests of its input and writes what each is answered, in words.
//
// A line that starts with 0 is a request, eleven numbers and a text: bytes 0 and 1 of the PDU, Version-min, ISID, TSIH, CID, the
// live session's handle, the new handle, the lengths of the lent gather area and text output, and how many bytes are cut off the PDU. In
// the text | stands for a zero byte. "params" writes the parameters in force. Other lines are copied, and "login" begins a login.
#![tactic(auto)]

mod answer;
mod pdu;

use answer::{put_answer, put_parameters};
use login::request::login_request;
use login_types::state::{State, Step};
use pdu::{Words, first, least, put_pdu, short, words_of};
use print::{fill, put};
use std::io;
use std::io::Write;

// Plays a PDU. Lends as much of the gather area and of the text output as the words say.
fn play(l: State, n: [u64; 11], pdu: &[u8], gather: &mut [u8], out: &mut [u8]) -> Step {
    let g = least(n[8], gather.len());
    let t = least(n[9], out.len());
    login_request(
        l,
        pdu,
        short(n[6]),
        short(n[7]),
        b"iqn.2026-11.example:drawbevel",
        &mut gather[..g],
        &mut out[..t],
    )
}

// Plays the PDU that a line is, and writes the answer.
fn request<W: Write>(
    to: &mut W,
    l: &mut State,
    gather: &mut [u8],
    out: &mut [u8],
    line: &[u8],
) -> io::Result<()> {
    let Words { n, rest } = words_of(line);
    let mut pdu = [0u8; 9000];
    let end = put_pdu(&mut pdu, n, &line[rest..]);
    let step = play(*l, n, first(&pdu, end), gather, out);
    *l = step.state;
    put_answer(to, step.answer, out)
}

fn copy<W: Write>(to: &mut W, line: &[u8]) -> io::Result<()> {
    put(to, line)?;
    put(to, b"\n")
}

fn run_line<W: Write>(
    to: &mut W,
    l: &mut State,
    gather: &mut [u8],
    out: &mut [u8],
    line: &[u8],
) -> io::Result<()> {
    match line {
        [b'0', ..] => request(to, l, gather, out, line),
        [b'p', ..] => put_parameters(to, l.settled.parameters),
        [b'l', ..] => {
            *l = State::fresh();
            copy(to, line)
        }
        _ => copy(to, line),
    }
}

fn run_all<W: Write>(to: &mut W, script: &[u8]) -> io::Result<()> {
    let mut l = State::fresh();
    let mut gather = [0xeeu8; 8192];
    let mut out = [0xeeu8; 8192];
    for line in script.split_inclusive(|b| *b == b'\n') {
        let line = line.strip_suffix(b"\n").unwrap_or(line);
        run_line(to, &mut l, &mut gather, &mut out, line)?;
    }
    Ok(())
}

fn main(rt: HostRuntime) -> io::Result<()> {
    let mut input = [0u8; 65536];
    let n = fill(&mut rt.stdin(), &mut input)?;
    let mut to = io::writer(&rt);
    run_all(&mut to, &input[..n])
}
