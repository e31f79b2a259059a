// Headers kept in slots of 48 bytes in an array that the caller lends: the command window and the status ledgers
// keep theirs so.
#![tactic(auto)]

ghost use Rattle.std.specs.Prelude.{◌≡◌, ◌++◌, ◌+◌, ◌≤◌, length, take, drop};
ghost use Rattle.std.proofs.Math.Seq.{paste};
ghost use Rattle.store.specs.Slot.{header_size};

// The length of a header, and so of a slot.
pub use field::HEADER_BYTES;

// Writes the first 48 bytes of a header into the bytes from `at` on. By way of an array of its own, so that the two copies are each of memory
// that nothing else refers to, and compile to a few wide moves. What is lent is a slice here and in all calls above: C lends any length from 48 on, whose
// bytes after the header stay, and an array would ask for exactly 48.
pub fn put(headers: &mut [u8], at: usize, header: &[u8])
    requires { (at + header_size ≤ length headers.old) × (header_size ≤ length header.now) }
    ensures { headers.new ≡ paste headers.old at header.now header_size }
{
    let mut bytes = [0u8; HEADER_BYTES];
    bytes.copy_from_slice(&header[..HEADER_BYTES]);
    headers[at..at + HEADER_BYTES].copy_from_slice(&bytes);
}

// Copies the header that starts at `at` into the first 48 bytes of out; the later ones stay.
pub fn get(headers: &[u8], at: usize, out: &mut [u8])
    requires { (at + header_size ≤ length headers.now) × (header_size ≤ length out.old) }
    ensures { out.new ≡ take header_size (drop at headers.now) ++ drop header_size out.old }
{
    put(out, 0, &headers[at..]);
}
