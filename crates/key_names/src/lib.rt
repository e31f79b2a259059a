// The names of the known keys as numbers, and the whole comparison of a name with one of them.
#![tactic(auto)]

ghost use Rattle.std.specs.Prelude.{◌≡◌, true, ◌+◌, ◌≤◌, ◌<◌, length};
ghost use Rattle.field.specs.Field.{be_at};
ghost use Rattle.text.specs.Text.{same, has};
ghost use Rattle.key_table.specs.Table.{place_of_key, name_at};
ghost use Rattle.key_names.specs.Candidates.{candidates_of};
ghost use Rattle.key_names.specs.Spelling.{spelt, middle_at};

use field::be;
use key_table::table::Key;

// A known name: its length and first letter, the second of its candidates where it has one, and its bytes, of which
// the first eight, eight in the middle and the last eight are numbers.
#[derive(Clone, Copy)]
pub struct KnownName {
    pub length: usize,
    pub letter: u8,
    pub second: Option<Key>,
    pub head: u64,
    pub middle: u64,
    pub tail: u64,
}

// The eight bytes from a place on as a number, and below where the middle begins: spelt out here beside `word` and `middle_at`, for a
// static's value calls no function.
macro_rules! word_at {
    ($name:literal, $at:expr) => {
        ($name[$at] as u64) << 56
            | ($name[$at + 1] as u64) << 48
            | ($name[$at + 2] as u64) << 40
            | ($name[$at + 3] as u64) << 32
            | ($name[$at + 4] as u64) << 24
            | ($name[$at + 5] as u64) << 16
            | ($name[$at + 6] as u64) << 8
            | ($name[$at + 7] as u64)
    };
}

// A name of the table on one line: its bytes, and the second of its candidates.
macro_rules! name {
    ($name:literal, $second:expr) => {
        KnownName {
            length: $name.len(),
            letter: $name[0],
            second: $second,
            head: word_at!($name, 0),
            middle: word_at!($name, if $name.len() < 16 { $name.len() - 8 } else { 8 }),
            tail: word_at!($name, $name.len() - 8),
        }
    };
}

// The names, in the order of the keys.
static NAMES: [KnownName; 28] = [
    name!(b"MaxConnections", Some(Key::MaxBurstLength)),
    name!(b"MaxOutstandingR2T", None),
    name!(b"InitialR2T", None),
    name!(b"DataPDUInOrder", None),
    name!(b"DataSequenceInOrder", None),
    name!(b"ImmediateData", Some(Key::InitiatorName)),
    name!(b"MaxRecvDataSegmentLength", None),
    name!(b"MaxBurstLength", Some(Key::MaxBurstLength)),
    name!(b"FirstBurstLength", None),
    name!(b"DefaultTime2Wait", None),
    name!(b"DefaultTime2Retain", None),
    name!(b"ErrorRecoveryLevel", None),
    name!(b"HeaderDigest", None),
    name!(b"DataDigest", None),
    name!(b"TaskReporting", Some(Key::TargetAddress)),
    name!(b"AuthMethod", None),
    name!(b"InitiatorName", Some(Key::InitiatorName)),
    name!(b"TargetName", None),
    name!(b"SessionType", Some(Key::SendTargets)),
    name!(b"InitiatorAlias", None),
    name!(b"IFMarker", None),
    name!(b"OFMarker", None),
    name!(b"IFMarkInt", None),
    name!(b"OFMarkInt", None),
    name!(b"TargetAlias", None),
    name!(b"TargetAddress", Some(Key::TargetAddress)),
    name!(b"TargetPortalGroupTag", None),
    name!(b"SendTargets", Some(Key::SendTargets)),
];

// The name of key k, in numbers.
pub fn name_of(k: Key) -> KnownName
    ensures { result ≡ spelt (place_of_key k) }
{
    NAMES[k as usize]
}

// Where the middle of a name begins: with head and tail it covers names of 8 to 24 bytes.
#[tactic(auto, unfolding(crate::specs::Spelling::middle_at))]
fn middle_at(n: usize) -> usize
    requires { 8 ≤ n }
    ensures { result ≡ middle_at n }
{
    if n < 16 { n - 8 } else { 8 }
}

// The eight bytes from at on as a number, in halves, which compile to one load.
#[tactic(auto, using(crate::proofs::Words::halves))]
fn word(s: &[u8], at: usize) -> u64
    requires { at + 8 ≤ length s.now }
    ensures { result ≡ be_at s.now at 8 }
{
    be(s, at, 4) * 0x1_0000_0000 + be(s, at + 4, 4)
}

// The name is that of key k, one of its candidates, compared whole.
#[tactic(auto, using(crate::proofs::Words::name_least, crate::proofs::Words::middle_in, crate::proofs::Words::whole))]
pub fn is_name(name: &[u8], k: Key) -> bool
    requires { has (place_of_key k) (candidates_of name.now) ≡ true }
    ensures { result ≡ same name.now (name_at (place_of_key k)) }
{
    let known = name_of(k);
    let n = name.len();
    let middle = middle_at(n);
    let head_same = word(name, 0) == known.head;
    let middle_same = word(name, middle) == known.middle;
    let tail_same = word(name, n - 8) == known.tail;
    head_same & middle_same & tail_same
}
