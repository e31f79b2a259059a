// Words: the 64-bit numbers that the structs of drawbevel.h are read into and made of.
#![tactic(auto)]

ghost use Rattle.std.specs.Prelude.{◌≡◌};
ghost use Rattle.words.specs.Words.{flag_word};

// One more than the greatest value of a field of 8 bits, and of 16.
pub const WIDE_8: u64 = 0x100;

pub const WIDE_16: u64 = 0x1_0000;

// 1 or 0.
pub fn flag(on: bool) -> u64
    ensures { result ≡ flag_word on }
{
    u64::from(on)
}
