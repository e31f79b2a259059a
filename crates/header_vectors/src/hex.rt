// Hex digits, read into bytes.
ghost use Rattle.std.specs.Prelude.{◌≤◌, ◌<◌, length, IfSome};

// The value of a hex digit, in lower case alone, which neither to_digit nor `text_number` is.
fn digit(b: u8) -> Option<u8>
    ensures { IfSome result (λ d. d < 16) }
{
    match b {
        b'0'..=b'9' => Some(b - b'0'),
        b'a'..=b'f' => Some(b - b'a' + 10),
        _ => None,
    }
}

// The bytes that the text's hex digits are, into out, up to the first other byte; how many there are. Counted by hand, since the
// count is the answer: zipped with out it would be counted too, and a proof would have to say that it fits.
pub fn unhex(text: &[u8], out: &mut [u8]) -> usize
    ensures { result ≤ length out.new }
{
    let mut n = 0;
    for &[high, low] in text.as_chunks::<2>().0 {
        let (Some(high), Some(low)) = (digit(high), digit(low)) else {
            return n;
        };
        if out.len() <= n {
            return n;
        }
        out[n] = high * 16 + low;
        n += 1;
    }
    n
}
