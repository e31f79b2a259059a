// The known keys and what each is, and the table of the twelve that have a rule, a range and a standard value.
ghost use Rattle.std.specs.Prelude.{◌≡◌, ◌<◌};
ghost use Rattle.key_table.specs.Table.{place_of_key, kind_at, row_at};

// A known key, in the order of the names; its number is its place there.
#[derive(Clone, Copy, PartialEq, Eq)]
pub enum Key {
    MaxConnections,
    MaxOutstandingR2t,
    InitialR2t,
    DataPduInOrder,
    DataSequenceInOrder,
    ImmediateData,
    MaxRecvDataSegmentLength,
    MaxBurstLength,
    FirstBurstLength,
    DefaultTime2Wait,
    DefaultTime2Retain,
    ErrorRecoveryLevel,
    HeaderDigest,
    DataDigest,
    TaskReporting,
    AuthMethod,
    InitiatorName,
    TargetName,
    SessionType,
    InitiatorAlias,
    IfMarker,
    OfMarker,
    IfMarkInt,
    OfMarkInt,
    TargetAlias,
    TargetAddress,
    TargetPortalGroupTag,
    SendTargets,
}

// What a known key is, in the order of the rules that judge it.
#[derive(Clone, Copy)]
pub enum Kind {
    // A key of the table, negotiated.
    Negotiated,
    // MaxRecvDataSegmentLength.
    Declared,
    Digest,
    TaskReporting,
    AuthMethod,
    InitiatorName,
    TargetName,
    SessionType,
    InitiatorAlias,
    // Known, and always answered Reject.
    Marker,
    // Known, and always refused: an initiator does not send it in a login.
    Refused,
}

// How the offer and our own value settle a key of the table.
#[derive(Clone, Copy)]
pub enum Rule {
    Least,
    Greatest,
    Or,
    And,
    Declared,
}

// A key of the table; a boolean's values are Yes 1 and No 0.
#[derive(Clone, Copy)]
pub struct Row {
    pub rule: Rule,
    pub low: u32,
    pub high: u32,
    pub standard: u32,
    pub ours: u32,
}

// A row of the table on one line: rule, range, standard value, and ours.
macro_rules! row {
    ($rule:ident, $low:literal, $high:literal, $standard:literal, $ours:literal) => {
        Row {
            rule: Rule::$rule,
            low: $low,
            high: $high,
            standard: $standard,
            ours: $ours,
        }
    };
}

// The twelve keys, in the order of their names.
pub(crate) const TABLE: [Row; 12] = [
    row!(Least, 1, 65535, 1, 4), // MaxConnections
    row!(Least, 1, 65535, 1, 1), // MaxOutstandingR2T
    row!(Or, 0, 1, 1, 1), // InitialR2T
    row!(Or, 0, 1, 1, 1), // DataPDUInOrder
    row!(Or, 0, 1, 1, 1), // DataSequenceInOrder
    row!(And, 0, 1, 1, 1), // ImmediateData
    row!(Declared, 512, 16777215, 8192, 8192), // MaxRecvDataSegmentLength
    row!(Least, 512, 16777215, 262144, 262144), // MaxBurstLength
    row!(Least, 512, 16777215, 65536, 65536), // FirstBurstLength
    row!(Greatest, 0, 3600, 2, 2), // DefaultTime2Wait
    row!(Least, 0, 3600, 20, 20), // DefaultTime2Retain
    row!(Least, 0, 2, 0, 1), // ErrorRecoveryLevel
];

// The table where it is indexed by a key: a constant would be built there on the stack.
static ROWS: [Row; 12] = TABLE;

// The row of a place below twelve: no Key, since only twelve of the keys have one.
#[tactic(auto, using(std::proofs::lemmas::List::get_or_default), unfolding(crate::specs::Table::row_at, crate::specs::Table::rows))]
pub fn row_of(k: usize) -> Row
    requires { k < 12 }
    ensures { result ≡ row_at k }
{
    ROWS[k]
}

#[tactic(auto, unfolding(crate::specs::Table::kind_at, crate::specs::Table::known))]
pub fn kind_of(k: Key) -> Kind
    ensures { result ≡ kind_at (place_of_key k) }
{
    match k {
        Key::MaxConnections
        | Key::MaxOutstandingR2t
        | Key::InitialR2t
        | Key::DataPduInOrder
        | Key::DataSequenceInOrder
        | Key::ImmediateData
        | Key::MaxBurstLength
        | Key::FirstBurstLength
        | Key::DefaultTime2Wait
        | Key::DefaultTime2Retain
        | Key::ErrorRecoveryLevel => Kind::Negotiated,
        Key::MaxRecvDataSegmentLength => Kind::Declared,
        Key::HeaderDigest | Key::DataDigest => Kind::Digest,
        Key::TaskReporting => Kind::TaskReporting,
        Key::AuthMethod => Kind::AuthMethod,
        Key::InitiatorName => Kind::InitiatorName,
        Key::TargetName => Kind::TargetName,
        Key::SessionType => Kind::SessionType,
        Key::InitiatorAlias => Kind::InitiatorAlias,
        Key::IfMarker | Key::OfMarker | Key::IfMarkInt | Key::OfMarkInt => Kind::Marker,
        Key::TargetAlias | Key::TargetAddress | Key::TargetPortalGroupTag | Key::SendTargets =>
            Kind::Refused,
    }
}
