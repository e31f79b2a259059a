// The lengths that a header states. The bytes are a slice of 48 or more: an array of 48 would ask more of a caller (docs/DECISIONS.md).
ghost use Rattle.std.specs.Prelude.{◌≡◌, ◌^◌, ◌≤◌, ◌<◌, length};
ghost use Rattle.request_header.specs.Request.{data_length_of, data_start_of};

use field::{HEADER_BYTES, be};

pub fn data_length(s: &[u8]) -> usize
    requires { 48 ≤ length s.now }
    ensures { (result ≡ data_length_of s.now) × (result < 256 ^ 3) }
{
    be(s, 5, 3) as usize
}

// Where the data starts: after the additional headers.
pub fn data_start(s: &[u8]) -> usize
    requires { 48 ≤ length s.now }
    ensures { (result ≡ data_start_of s.now) × (result ≤ 1068) }
{
    HEADER_BYTES + s[4] as usize * 4
}
