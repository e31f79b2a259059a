// A response's own fields as whole numbers, of whatever kind it is.
#![tactic(auto)]

ghost use Rattle.std.specs.Prelude.{◌≡◌, ◌≤◌};
ghost use Rattle.response_header.specs.Response.{weigh};

// A response's own fields, in whole numbers by the byte that each starts at. Between byte 23 and byte 36 stand the three numbers,
// the first of which is 0 where has_stat_sn is false: in Data-In.
#[derive(Clone, Copy)]
pub struct OwnFields {
    pub at_0: u64,
    pub at_8: u64,
    pub at_16: u64,
    pub has_stat_sn: bool,
    pub at_36: u32,
    pub at_40: u64,
}

// k where on is set, else 0. A byte's; one function over every width would be no plainer.
pub fn weight(on: bool, k: u8) -> u8
    ensures { (result ≡ weigh on k) × (result ≤ k) }
{
    if on { k } else { 0 }
}
