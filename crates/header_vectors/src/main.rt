// Runs header vectors: each line of standard input is a PDU in hex, as many bytes 0x61 after it as the number that follows a
// plus sign says, or a comment, which is copied. Then responses at each rule's boundary are written.
#![tactic(auto)]

mod hex;
mod responses;
mod show;

ghost use Rattle.std.specs.Prelude.{◌≤◌};

use print::fill;
use request_header::LIMITS;
use std::io;
use std::io::Write;

// The number that the decimal digits after the first plus sign are, up to the first other byte; at most 65535.
fn added(line: &[u8]) -> usize
    ensures { result ≤ 65535 }
{
    let Some(plus) = line.iter().position(|b| *b == b'+') else {
        return 0;
    };
    let mut n: usize = 0;
    for &d in &line[plus + 1..] {
        if !d.is_ascii_digit() {
            return n;
        }
        n = (n * 10 + (d % 16) as usize) % 65536;
    }
    n
}

// The data segment's first and last byte, where it has any.
fn ends<W: Write>(to: &mut W, data: &[u8]) -> io::Result<()> {
    match data {
        [] => Ok(()),
        [first, ..] => {
            let last = data[data.len() - 1];
            writeln!(to, "    data starts {first:02x}, ends {last:02x}")
        }
    }
}

// Reads the PDU that the first n bytes of the buffer are.
fn read_first<W: Write>(to: &mut W, buffer: &[u8], n: usize) -> io::Result<()> {
    if buffer.len() < n {
        return Ok(());
    }
    let pdu = &buffer[..n];
    match request_pdu::read(pdu, LIMITS) {
        Ok(p) => {
            show::pdu(to, p)?;
            ends(to, request_pdu::data_of(pdu, p))
        }
        Err(f) => writeln!(to, "{f}"),
    }
}

fn run_vector<W: Write>(to: &mut W, line: &[u8]) -> io::Result<()> {
    let mut pdu = [0x61u8; 9000];
    let n = hex::unhex(line, &mut pdu);
    read_first(to, &pdu, n + added(line))
}

fn run_line<W: Write>(to: &mut W, line: &[u8]) -> io::Result<()> {
    match line {
        [] => Ok(()),
        [b'#', ..] => {
            to.write_all(line)?;
            to.write_all(b"\n")
        }
        _ => run_vector(to, line),
    }
}

fn main(rt: HostRuntime) -> io::Result<()> {
    let mut buffer = [0u8; 65536];
    let n = fill(&mut rt.stdin(), &mut buffer)?;
    let mut to = io::writer(&rt);
    for line in buffer[..n].split(|b| *b == b'\n') {
        run_line(&mut to, line)?;
    }
    responses::run_all(&mut to)
}
