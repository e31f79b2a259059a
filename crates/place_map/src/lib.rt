// Maps of the 64 places of a command window, one bit for each: bit d is for the number R + d. Each function here says
// which number it makes; what a map says of the places is the window's.
#![tactic(auto)]

ghost use Rattle.std.specs.Prelude.{◌≡◌, ◌-◌, ◌^◌, ◌<◌, ◌≤◌};
ghost use Rattle.place_map.specs.Bit.{bits, bit_at, Gapless};

// The bits of a map: not `window::PLACES`, since window stands above.
const BITS: u32 = 64;

// Bit d of a map. A number, as its definition `bit_at` is. The distance stays a number with a `requires`, here and in `only`, `window::origin_at` and
// `window_offer`'s `entered`: an offer and a holder have tested it once, and a type of it would be made by a second test.
#[tactic(auto, unfolding(crate::specs::Bit::bit_at))]
pub fn bit(map: u64, d: u32) -> u64
    requires { d < bits }
    ensures { result ≡ bit_at map d }
{
    (map >> d) % 2
}

// The map of place d alone.
pub fn only(d: u32) -> u64
    requires { d < bits }
    ensures { result ≡ 2 ^ d }
{
    1u64 << d
}

// The count of held places without a gap from the first: 64 where all are held.
pub fn gapless(held: u64) -> u32
    ensures { Gapless held result }
{
    (!held).trailing_zeros()
}

// The map of the first g places.
pub fn below(g: u32) -> u64
    requires { g ≤ bits }
    ensures { result ≡ 2 ^ g - 1 }
{
    if g == BITS { u64::MAX } else { (1u64 << g) - 1 }
}
