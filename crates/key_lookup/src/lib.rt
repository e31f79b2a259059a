// The key of a name: its length and first letter choose the known names that share both, and it is compared whole with these alone.
#![tactic(auto)]

ghost use Rattle.std.specs.Prelude.{◌≡◌, [], MatchOption};
ghost use Rattle.key_table.specs.Table.{key_of, place_of_found};
ghost use Rattle.key_names.specs.Candidates.{candidates_of};
ghost use Rattle.key_lookup.specs.Lookup.{AreFirstTwo};

use key_names::{is_name, name_of};
use key_table::table::Key;

// The known names by their length n and first letter c: in place (21 n + c) mod 54 stands the first that has both. No two such pairs of
// the known names share a place.
static FIRST_CANDIDATES: [Option<Key>; 54] = [
    Some(Key::HeaderDigest),
    None,
    Some(Key::MaxOutstandingR2t),
    None,
    None,
    Some(Key::AuthMethod),
    None,
    None,
    Some(Key::DataDigest),
    None,
    None,
    None,
    None,
    Some(Key::InitialR2t),
    Some(Key::DefaultTime2Retain),
    Some(Key::ErrorRecoveryLevel),
    None,
    None,
    Some(Key::TargetPortalGroupTag),
    None,
    None,
    None,
    Some(Key::ImmediateData),
    None,
    Some(Key::TargetName),
    Some(Key::IfMarker),
    Some(Key::DefaultTime2Wait),
    None,
    Some(Key::FirstBurstLength),
    None,
    None,
    Some(Key::OfMarker),
    None,
    Some(Key::TaskReporting),
    None,
    Some(Key::DataSequenceInOrder),
    None,
    None,
    Some(Key::DataPduInOrder),
    None,
    None,
    Some(Key::MaxRecvDataSegmentLength),
    None,
    Some(Key::InitiatorAlias),
    Some(Key::SessionType),
    Some(Key::TargetAlias),
    Some(Key::IfMarkInt),
    Some(Key::MaxConnections),
    None,
    None,
    None,
    None,
    Some(Key::OfMarkInt),
    None,
];

// The candidates of a name: none, or the first and the second where there is one. A name of another length or letter than its place's
// key has none.
#[tactic(auto, using(crate::proofs::Places::too_short, crate::proofs::Places::too_long, crate::proofs::Places::nothing_there))]
fn candidates_of(name: &[u8]) -> Option<(Key, Option<Key>)>
    ensures { MatchOption result (candidates_of name.now ≡ []) (λ p. AreFirstTwo (candidates_of name.now) p) }
{
    let n = name.len();
    if n < 8 || 24 < n {
        return None;
    }
    let letter = name[0];
    let first = FIRST_CANDIDATES[(n * 21 + letter as usize) % 54]?;
    let known = name_of(first);
    if known.length != n || known.letter != letter {
        return None;
    }
    Some((first, known.second))
}

// The key that bears this name.
#[tactic(auto, using(crate::proofs::Turns::none_there, crate::proofs::Turns::among))]
pub fn key_of(name: &[u8]) -> Option<Key>
    ensures { place_of_found result ≡ key_of name.now }
{
    let (first, second) = candidates_of(name)?;
    if is_name(name, first) {
        return Some(first);
    }
    second.filter(|k| is_name(name, *k))
}
