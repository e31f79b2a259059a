// One pair of a block, judged: wrong stage, leading login only and twice come before its value.
ghost use Rattle.std.specs.Prelude.{◌≡◌, false, get_or, Ok};
ghost use Rattle.text.specs.Text.{pick, listed};
ghost use Rattle.key_table.specs.Table.{kind_at, place_of_key, place_of_found};
ghost use Rattle.key_values.specs.declared.value.Judgement.TheVariants as J;
ghost use Rattle.keys.specs.Judge.{good_length, initiator_name, target_name, session_type, judge_by, stands, leading_only, judge_key, judge_named};

use key_table::table::{Key, Kind, kind_of, row_of};
use key_values::value::{Judgement, Reply, settle};
use text::slice::{lists, same_bytes};

// What a pair is judged by beside its key, its value and the keys that came: the request's stage, whether the login is leading, and our target name.
#[derive(Clone, Copy)]
pub struct Context<'a> {
    pub stage: u8,
    pub leading: bool,
    pub ours: &'a [u8],
}

// InitiatorName and TargetName have 1 to 223 bytes.
fn length_good(v: &[u8]) -> bool
    ensures { result ≡ good_length v.now }
{
    let n = v.len();
    (1 <= n) & (n <= 223)
}

#[tactic(auto, unfolding(crate::specs::Judge::initiator_name))]
fn initiator_name(v: &[u8]) -> Result<Judgement, u16>
    ensures { result ≡ initiator_name v.now }
{
    if length_good(v) {
        Ok(Judgement::Said(Reply::Silent))
    } else {
        Err(0x0200)
    }
}

#[tactic(auto, unfolding(crate::specs::Judge::target_name))]
fn target_name(ours: &[u8], v: &[u8]) -> Result<Judgement, u16>
    ensures { result ≡ target_name ours.now v.now }
{
    if !length_good(v) {
        return Err(0x0200);
    }
    if !same_bytes(v, ours) {
        return Err(0x0203);
    }
    Ok(Judgement::Said(Reply::Silent))
}

#[tactic(auto, unfolding(crate::specs::Judge::session_type))]
fn session_type(v: &[u8]) -> Result<Judgement, u16>
    ensures { result ≡ session_type v.now }
{
    if same_bytes(v, b"Normal") {
        return Ok(Judgement::Said(Reply::Silent));
    }
    if same_bytes(v, b"Discovery") {
        return Err(0x0209);
    }
    Err(0x0200)
}

// A key whose value is a comma list: said where the list has the word, else the other judgement.
fn by_list(
    v: &[u8],
    word: &[u8],
    said: Reply,
    other: Result<Judgement, u16>,
) -> Result<Judgement, u16>
    ensures { result ≡ pick (listed word.now v.now) (Ok (J.Said said)) other }
{
    if lists(v, word) {
        Ok(Judgement::Said(said))
    } else {
        other
    }
}

// The value of key k, which is of this kind. A key that is settled by a row has it at its place.
#[tactic(auto, unfolding(crate::specs::Judge::digest, crate::specs::Judge::task_reporting, crate::specs::Judge::auth_method))]
fn judge_value(kind: Kind, k: Key, ours: &[u8], v: &[u8]) -> Result<Judgement, u16>
    requires { kind ≡ kind_at (place_of_key k) }
    ensures { result ≡ judge_by kind (place_of_key k) ours.now v.now }
{
    match kind {
        Kind::Negotiated | Kind::Declared => Ok(settle(row_of(k as usize), v)),
        Kind::Digest => by_list(v, b"None", Reply::None, Ok(Judgement::Said(Reply::Reject))),
        Kind::TaskReporting => by_list(
            v,
            b"RFC3720",
            Reply::Rfc3720,
            Ok(Judgement::Said(Reply::Reject)),
        ),
        Kind::AuthMethod => by_list(v, b"None", Reply::None, Err(0x0201)),
        Kind::InitiatorName => initiator_name(v),
        Kind::TargetName => target_name(ours, v),
        Kind::SessionType => session_type(v),
        Kind::InitiatorAlias => Ok(Judgement::Said(Reply::Silent)),
        Kind::Marker => Ok(Judgement::Said(Reply::Reject)),
        Kind::Refused => Err(0x0200),
    }
}

// Operational keys stand in stage 1, AuthMethod in stage 0, the others in either.
fn may_stand(kind: Kind, stage: u8) -> bool
    ensures { result ≡ stands kind stage }
{
    match kind {
        Kind::Negotiated | Kind::Declared | Kind::Digest | Kind::TaskReporting => stage == 1,
        Kind::AuthMethod => stage == 0,
        Kind::InitiatorName
        | Kind::TargetName
        | Kind::SessionType
        | Kind::InitiatorAlias
        | Kind::Marker
        | Kind::Refused => true,
    }
}

// The table's keys but MaxRecvDataSegmentLength, and TaskReporting.
fn only_leading(kind: Kind) -> bool
    ensures { result ≡ leading_only kind }
{
    matches!(kind, Kind::Negotiated | Kind::TaskReporting)
}

// A known key, seen before in this login or not.
#[tactic(auto, unfolding(crate::specs::Judge::judge_key))]
fn judge_key(seen: bool, by: &Context<'_>, k: Key, v: &[u8]) -> Result<Judgement, u16>
    ensures { result ≡ judge_key seen by.now.stage by.now.leading by.now.ours.now (place_of_key k) v.now }
{
    let kind = kind_of(k);
    if !may_stand(kind, by.stage) | (only_leading(kind) & !by.leading) | seen {
        return Err(0x0200);
    }
    judge_value(kind, k, by.ours, v)
}

// A pair whose name is key k's, None for one that is not known, after these keys came.
#[tactic(auto, unfolding(crate::specs::Judge::judge_named))]
pub fn judge_pair(
    seen: &[bool; 28],
    by: &Context<'_>,
    k: Option<Key>,
    v: &[u8],
) -> Result<Judgement, u16>
    ensures { result ≡ judge_named (get_or seen.now (place_of_found k) false) by.now.stage by.now.leading by.now.ours.now (place_of_found k) v.now }
{
    let Some(k) = k else {
        return Ok(Judgement::Said(Reply::NotUnderstood));
    };
    judge_key(seen[k as usize], by, k, v)
}
