// What the programs share: a buffer is filled from the input and searched for the end of a line or of a word, and bytes are written.
//
// A program lends its writer to each function that writes. None of them hides a read or a write that failed.
#![tactic(auto)]

ghost use Rattle.std.specs.Prelude.{◌≡◌, ◌+◌, ◌≤◌, min, length, IfOk, OnOk};
ghost use Rattle.std.specs.Io.KnownBytes.{Appends};

use std::io;
use std::io::{Read, Write};

// Reads until the buffer is full or the input ends; gives how many bytes were read. What is longer than the buffer is cut.
pub fn fill<R: Read>(from: &mut R, buffer: &mut [u8]) -> io::Result<usize>
    ensures { IfOk result (λ n. n ≤ length buffer.new) }
{
    let mut done = 0;
    // A read says how far it came, so no iterator counts.
    while done < buffer.len() {
        let n = from.read(&mut buffer[done..])?;
        if n == 0 {
            return Ok(done);
        }
        done += n;
    }
    Ok(done)
}

pub fn put<W: Write>(to: &mut W, text: &[u8]) -> io::Result<()>
    ensures { OnOk result (Appends (W.contents to.old) (W.contents to.new) text.now) }
{
    to.write_all(text)
}

// The place of the first such byte from a place on, or the end of the text. Not by `text::slice::find`: print stands on no crate of the
// library. A place and no Option, as there.
pub fn find(text: &[u8], from: usize, byte: u8) -> usize
    requires { from ≤ length text.now }
    ensures { (from ≤ result) × (result ≤ length text.now) }
{
    match text[from..].iter().position(|b| *b == byte) {
        Some(i) => from + i,
        None => text.len(),
    }
}

// The place after the byte at a place, or the end of the text.
pub fn past(text: &[u8], at: usize) -> usize
    requires { at ≤ length text.now }
    ensures { result ≡ min (at + 1) (length text.now) }
{
    if at < text.len() { at + 1 } else { at }
}
