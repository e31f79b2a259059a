// The Login request of a line: its words as numbers, and the PDU that these and the text are.
ghost use Rattle.std.specs.Prelude.{◌≡◌, ◌≤◌, length};

use field::{four, pair, put, six_two};
use print::{find, past};
use text_number::number::number_of;

// The first eleven words of a line as numbers, 0 where a word is none, and where the rest begins.
#[derive(Clone, Copy)]
pub(crate) struct Words {
    pub(crate) n: [u64; 11],
    pub(crate) rest: usize,
}

pub(crate) fn words_of(line: &[u8]) -> Words
    ensures { result.rest ≤ length line.now }
{
    let mut n = [0u64; 11];
    let mut at = 0;
    for v in &mut n {
        let end = find(line, at, b' ');
        *v = number_of(&line[at..end]).unwrap_or(0);
        at = past(line, end);
    }
    Words { n, rest: at }
}

pub(crate) fn least(a: u64, b: usize) -> usize
    ensures { result ≤ b }
{
    b.min(a as usize)
}

// A word as a field of one byte: a wider one is cut to it, and not refused as TryFrom would.
fn low(v: u64) -> u8 {
    (v % 256) as u8
}

// The same, of two bytes.
pub(crate) fn short(v: u64) -> u16 {
    (v % 65536) as u16
}

// The first n bytes, or all where there are fewer.
pub(crate) fn first(s: &[u8], n: u64) -> &[u8] {
    &s[..least(n, s.len())]
}

// Opcode and flags, Version-min and the DataSegmentLength.
fn first_fields(n: [u64; 11], data: u16) -> u64 {
    let word = four(low(n[0]), low(n[1]), 0, low(n[2]));
    pair(word, data as u32)
}

// The header of a PDU with this much data.
fn put_header(pdu: &mut [u8; 9000], n: [u64; 11], data: u16) {
    put(pdu, 0, first_fields(n, data));
    put(pdu, 8, six_two(n[3], short(n[4])));
    put(pdu, 16, short(n[5]) as u64 * 0x1_0000);
}

// The text of a PDU, with zero bytes for |; gives its length.
fn put_text(pdu: &mut [u8; 9000], s: &[u8]) -> u16
    ensures { result ≤ 8900 }
{
    let n = s.len().min(8900);
    for (to, b) in pdu[48..].iter_mut().zip(&s[..n]) {
        *to = if *b == b'|' { 0 } else { *b };
    }
    n as u16
}

// The PDU, and how many of its bytes are left where as many as the last word says are cut off.
pub(crate) fn put_pdu(pdu: &mut [u8; 9000], n: [u64; 11], s: &[u8]) -> u64 {
    let data = put_text(pdu, s);
    put_header(pdu, n, data);
    let whole = 48 + (data as usize + 3) / 4 * 4;
    (whole - least(n[10], whole)) as u64
}
