// The maps of origins, one for each connection: the places whose command came on it. A connection's map is taken by a number
// that is written out: by an index the array lies in memory, written there map by map and then read in pairs, for which the
// processor waits (entering a place took 13.7 ns and not 6.6, a logout's two steps 21 and not 17; in a loop 21 and not 6.6).
#![tactic(auto)]

ghost use Rattle.std.specs.Prelude.{◌≡◌, ◌<◌, get_or, set, ltb};
ghost use Rattle.std.specs.Int.Bits.{bit_or};
ghost use Rattle.place_map.specs.Bit.{conns, each_without};
ghost use Rattle.field.specs.Field.{pick};

use window::CONNS;

// The map of a connection; one that there is not has no command.
pub fn of(origins: [u64; CONNS], conn: u32) -> u64
    ensures { result ≡ get_or origins conn 0 }
{
    match conn {
        0 => origins[0],
        1 => origins[1],
        2 => origins[2],
        3 => origins[3],
        _ => 0,
    }
}

// A map where on is set, else that of no place. `response_layout::weight` is a byte's, and of headers.
fn map_if(on: bool, map: u64) -> u64
    ensures { result ≡ pick on map 0 }
{
    if on { map } else { 0 }
}

// The maps with the places of another in a connection's. A number and no type: see `window::CONNECTIONS`.
#[tactic(auto, using(crate::proofs::Joined::joined))]
pub fn with_origin(origins: [u64; CONNS], conn: u32, map: u64) -> [u64; CONNS]
    requires { conn < conns }
    ensures { result ≡ set origins conn (bit_or (get_or origins conn 0) map) }
{
    [
        origins[0] | map_if(conn == 0, map),
        origins[1] | map_if(conn == 1, map),
        origins[2] | map_if(conn == 2, map),
        origins[3] | map_if(conn == 3, map),
    ]
}

// The maps with a connection's empty.
pub fn without_origin(origins: [u64; CONNS], conn: u32) -> [u64; CONNS]
    ensures { result ≡ pick (ltb conn conns) (set origins conn 0) origins }
{
    match conn {
        0 => [0, origins[1], origins[2], origins[3]],
        1 => [origins[0], 0, origins[2], origins[3]],
        2 => [origins[0], origins[1], 0, origins[3]],
        3 => [origins[0], origins[1], origins[2], 0],
        _ => origins,
    }
}

// The maps without the places of another.
#[tactic(auto, unfolding(place_map::specs::Bit::each_without, place_map::specs::Bit::without))]
pub fn each_without(origins: [u64; CONNS], gone: u64) -> [u64; CONNS]
    ensures { result ≡ each_without origins gone }
{
    origins.map(|m| m & !gone)
}
