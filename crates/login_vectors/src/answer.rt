// What a request is answered, and the parameters in force, as lines.
use crate::pdu::first;
use key_table::parameters::Parameters;
use login_types::state::Accepted;
use print::put;
use refusal::Refusal;
use std::io;
use std::io::Write;

// A refused login has a status too.
fn put_refusal<W: Write>(to: &mut W, f: Refusal) -> io::Result<()> {
    match f {
        Refusal::Login(status) => writeln!(to, "{f} 0x{status:04x}"),
        _ => writeln!(to, "{f}"),
    }
}

// Text with | for each zero byte.
fn put_text<W: Write>(to: &mut W, s: &[u8]) -> io::Result<()> {
    for (i, part) in s.split(|b| *b == 0).enumerate() {
        if 0 < i {
            put(to, b"|")?;
        }
        put(to, part)?;
    }
    Ok(())
}

fn put_accepted<W: Write>(to: &mut W, a: Accepted, out: &[u8]) -> io::Result<()> {
    let transit = if a.transit { " T" } else { "" };
    write!(
        to,
        "stage {}{transit} CSG {} NSG {} TSIH 0x{:04x} ",
        a.stage, a.csg, a.nsg, a.tsih
    )?;
    put_text(to, first(out, a.length as u64))?;
    put(to, b"\n")
}

pub(crate) fn put_answer<W: Write>(
    to: &mut W,
    a: Result<Accepted, Refusal>,
    out: &[u8],
) -> io::Result<()> {
    match a {
        Ok(accepted) => put_accepted(to, accepted, out),
        Err(refusal) => put_refusal(to, refusal),
    }
}

pub(crate) fn put_parameters<W: Write>(to: &mut W, p: Parameters) -> io::Result<()> {
    for v in p.values {
        write!(to, "{v} ")?;
    }
    put(to, b"\n")
}
