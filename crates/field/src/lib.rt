// Big-endian fields of a header, at any width, and single bits.
#![tactic(auto)]

ghost use Rattle.std.specs.Prelude.{◌≡◌, ◌+◌, ◌^◌, ◌≤◌, ◌<◌, length, ◌++◌};
ghost use Rattle.std.proofs.lemmas.List.Edits.{sets};
ghost use Rattle.field.specs.Field.{be_at, bytes_of, bit};

// The length of a header.
pub const HEADER_BYTES: usize = 48;

// A tag that stands for none.
pub const NONE: u32 = 0xffff_ffff;

// The n bytes from at on, as one big-endian number.
pub fn be(s: &[u8], at: usize, n: usize) -> u64
    requires { (n ≤ 8) × (at + n ≤ length s.now) }
    ensures { (result ≡ be_at s.now at n) × (result < 256 ^ n) }
{
    let mut v: u64 = 0;
    for &b in &s[at..at + n] {
        v = v * 256 + b as u64;
    }
    v
}

// be16 and be32 are two lines over be, put and put_four one over place: a trait over their types would be longer than they are.
pub fn be16(s: &[u8], at: usize) -> u16
    requires { at + 2 ≤ length s.now }
    ensures { result ≡ be_at s.now at 2 }
{
    be(s, at, 2) as u16
}

pub fn be32(s: &[u8], at: usize) -> u32
    requires { at + 4 ≤ length s.now }
    ensures { result ≡ be_at s.now at 4 }
{
    be(s, at, 4) as u32
}

// The bit of b whose weight is k.
pub fn flag(b: u8, k: u8) -> bool
    requires { 0 < k }
    ensures { result ≡ bit b k }
{
    b / k % 2 == 1
}

// Writes bytes from at on. They come by value, so that the copy is of memory that nothing else refers to: it compiles to one store.
fn place<const N: usize>(h: &mut [u8], at: usize, bytes: [u8; N])
    requires { at + N ≤ length h.old }
    ensures { h.new ≡ sets h.old at bytes.entry }
{
    h[at..at + N].copy_from_slice(&bytes);
}

// Writes v into the eight bytes from at on, the highest byte first.
pub fn put(h: &mut [u8], at: usize, v: u64)
    requires { at + 8 ≤ length h.old }
    ensures { h.new ≡ sets h.old at (bytes_of 8 v) }
{
    place::<8>(h, at, v.to_be_bytes());
}

// Writes v into the four bytes from at on, the highest byte first.
pub fn put_four(h: &mut [u8], at: usize, v: u32)
    requires { at + 4 ≤ length h.old }
    ensures { h.new ≡ sets h.old at (bytes_of 4 v) }
{
    place::<4>(h, at, v.to_be_bytes());
}

// A number of eight bytes from its two halves. By arithmetic, as in `two` and `six_two`: `from_be_bytes` would first need the bytes of the halves.
pub fn pair(a: u32, b: u32) -> u64
    ensures { bytes_of 8 result ≡ bytes_of 4 a ++ bytes_of 4 b }
{
    a as u64 * 0x1_0000_0000 + b as u64
}

// A number of four bytes from two of two.
pub fn two(a: u16, b: u16) -> u32
    ensures { bytes_of 4 result ≡ bytes_of 2 a ++ bytes_of 2 b }
{
    a as u32 * 0x1_0000 + b as u32
}

// A number of four bytes.
pub fn four(a: u8, b: u8, c: u8, d: u8) -> u32
    ensures { bytes_of 4 result ≡ bytes_of 1 a ++ (bytes_of 1 b ++ (bytes_of 1 c ++ bytes_of 1 d)) }
{
    u32::from_be_bytes([a, b, c, d])
}

// The low three bytes of a number, after a zero byte.
pub fn low_three(v: u32) -> u32
    ensures { bytes_of 4 result ≡ bytes_of 1 0 ++ bytes_of 3 v }
{
    v % 0x100_0000
}

// The low six bytes of a number, then two bytes.
pub fn six_two(a: u64, b: u16) -> u64
    ensures { bytes_of 8 result ≡ bytes_of 6 a ++ bytes_of 2 b }
{
    a % 0x1_0000_0000_0000 * 0x1_0000 + b as u64
}
