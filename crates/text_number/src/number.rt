// Numbers in a text, read and written.
ghost use Rattle.std.specs.Prelude.{◌≡◌, ◌+◌, ◌≤◌, ◌<◌, length, SomeIff};
ghost use Rattle.text.specs.Text.{Appended};
ghost use Rattle.text_number.specs.Number.{digit_of, number_in, number_of, decimal};

use text::slice::append;

// The value of a digit or a hex digit, where it is one of this base. With char::to_digit 0xffffffffffffffff took 49 ns and not 30.
fn digit(base: u64, b: u8) -> Option<u64>
    requires { base ≤ 16 }
    ensures { SomeIff result (digit_of b < base) (digit_of b) }
{
    let d = match b {
        b'0'..=b'9' => b as u64 - 48,
        b'A'..=b'F' => b as u64 - 55,
        b'a'..=b'f' => b as u64 - 87,
        _ => return None,
    };
    if d < base { Some(d) } else { None }
}

// All of s as digits of a number in this base; none where its value is 2^64 or more.
#[tactic(auto, using(crate::proofs::Digits::read))]
fn number_in(base: u64, s: &[u8]) -> Option<u64>
    requires { (1 ≤ base) × (base ≤ 16) }
    ensures { result ≡ number_in base s.now }
{
    if s.is_empty() {
        return None;
    }
    let mut v: u64 = 0;
    for b in s {
        v = v.checked_mul(base)?.checked_add(digit(base, *b)?)?;
    }
    Some(v)
}

// A value as a number: 0, or digits not starting with 0, or 0x or 0X and at least one hex digit, below 2^64.
#[tactic(auto, unfolding(crate::specs::Number::number_of))]
pub fn number_of(s: &[u8]) -> Option<u64>
    ensures { result ≡ number_of s.now }
{
    match s {
        [b'0', b'x' | b'X', digits @ ..] => number_in(16, digits),
        [b'0', _, ..] => None,
        _ => number_in(10, s),
    }
}

// n in decimal, after the first `at` bytes of an output.
#[tactic(auto, using(crate::proofs::Digits::put))]
pub fn put_decimal(out: &mut [u8], at: usize, n: u32) -> usize
    requires { at + 10 ≤ length out.old }
    ensures { Appended out.old at (decimal 10 n) out.new result }
{
    let mut digits = [b'0'; 10];
    let mut i = 9;
    let mut rest = n;
    // The measure is what is left, not a count of places. No write!: it answers with an io::Result, and this can't fail.
    while 10 <= rest {
        digits[i] = b'0' + (rest % 10) as u8;
        rest /= 10;
        i -= 1;
    }
    digits[i] = b'0' + rest as u8;
    append(out, at, &digits[i..])
}
