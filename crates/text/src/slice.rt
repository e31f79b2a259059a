// Slices of bytes: where a byte stands, equality, the items of a comma list, and appending to an output.
ghost use Rattle.std.specs.Prelude.{◌≡◌, ◌+◌, ◌≤◌, length};
ghost use Rattle.text.specs.Text.{before, same, listed, Appended};

// The place of the first x, or the length where there is none: a place and no Option, for `before` is the whole text then.
pub fn find(s: &[u8], x: u8) -> usize
    ensures { (result ≡ length (before x s.now)) × (result ≤ length s.now) }
{
    s.iter().position(|b| *b == x).unwrap_or(s.len())
}

// The two are the same bytes, compared whole and with case.
#[tactic(auto, using(crate::proofs::Words::same_is_bytes_eq))]
pub fn same_bytes(a: &[u8], b: &[u8]) -> bool
    ensures { result ≡ same a.now b.now }
{
    a == b
}

// w is an item of the comma list s; items are compared exactly, nothing is trimmed.
pub fn lists(s: &[u8], w: &[u8]) -> bool
    ensures { result ≡ listed w.now s.now }
{
    s.split(|b| *b == b',').any(|item| item == w)
}

// Puts b after the first `at` bytes of an output, and gives the new count. The count stands apart from the output here and in all that
// answer into one: a struct that holds a lent slice would have to say in each contract that it is still the slice that was lent.
// Byte by byte: `copy_from_slice` between two areas that C lends would have the archive ask for C's memmove.
pub fn append(out: &mut [u8], at: usize, b: &[u8]) -> usize
    requires { at + length b.now ≤ length out.old }
    ensures { Appended out.old at b.now out.new result }
{
    for (i, byte) in b.iter().enumerate() {
        out[at + i] = *byte;
    }
    at + b.len()
}
