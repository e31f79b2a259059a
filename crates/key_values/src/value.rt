// The value of a key of the table: the offer within its range, and what it settles with ours.
ghost use Rattle.std.specs.Prelude.{◌≡◌};
ghost use Rattle.text.specs.Text.{pick};
ghost use Rattle.text_number.specs.Number.{number_of};
ghost use Rattle.key_table.specs.Table.{is_bool};
ghost use Rattle.key_values.specs.Settle.{bool_of, ranged, settled_by, yes_no, reply_for, settling};

use key_table::table::{Row, Rule};
use text::slice::same_bytes;
use text_number::number::number_of;

// What a pair is answered.
#[derive(Clone, Copy)]
pub enum Reply {
    // Nothing: a good declaration.
    Silent,
    Reject,
    NotUnderstood,
    Yes,
    No,
    None,
    Rfc3720,
    Number(u32),
}

// A judged pair that no status refuses. Two cases, and not a reply beside an Option of a value: the rules speak of them
// (`keys/specs/Judge`, `key_values/specs/Settle`).
#[derive(Clone, Copy)]
pub enum Judgement {
    // Answered, and settles no value.
    Said(Reply),
    // This value is in force from now on.
    Settles(u32, Reply),
}

// Whether a key with this rule has boolean values.
fn is_bool(rule: Rule) -> bool
    ensures { result ≡ is_bool rule }
{
    matches!(rule, Rule::Or | Rule::And)
}

// Yes is 1 and No is 0.
#[tactic(auto, unfolding(crate::specs::Settle::bool_of))]
fn bool_of(v: &[u8]) -> Option<u64>
    ensures { result ≡ bool_of v.now }
{
    if same_bytes(v, b"Yes") {
        return Some(1);
    }
    if same_bytes(v, b"No") {
        return Some(0);
    }
    None
}

fn in_range(n: Option<u64>, low: u32, high: u32) -> Option<u32>
    ensures { result ≡ ranged low high n }
{
    let x = n?;
    if x < low as u64 {
        return None;
    }
    if (high as u64) < x {
        return None;
    }
    Some(x as u32)
}

// The offer, good where it has the right form, a boolean's or a number's, and lies in the range.
fn offered_in(boolean: bool, low: u32, high: u32, v: &[u8]) -> Option<u32>
    ensures { result ≡ ranged low high (pick boolean (bool_of v.now) (number_of v.now)) }
{
    if boolean {
        return in_range(bool_of(v), low, high);
    }
    in_range(number_of(v), low, high)
}

// The value that an offer a and our own b settle.
fn settle_by(rule: Rule, a: u32, b: u32) -> u32
    ensures { result ≡ settled_by rule a b }
{
    match rule {
        Rule::Least => a.min(b),
        Rule::Greatest => a.max(b),
        Rule::Or => u32::from((a == 1) | (b == 1)),
        Rule::And => u32::from((a == 1) & (b == 1)),
        Rule::Declared => a,
    }
}

fn yes_no(n: u32) -> Reply
    ensures { result ≡ yes_no n }
{
    if n == 1 { Reply::Yes } else { Reply::No }
}

// How a settled value is answered.
fn reply_for(rule: Rule, n: u32) -> Reply
    ensures { result ≡ reply_for rule n }
{
    match rule {
        Rule::Least | Rule::Greatest => Reply::Number(n),
        Rule::Or | Rule::And => yes_no(n),
        Rule::Declared => Reply::Silent,
    }
}

// An offered value of the key of this row: settled, or rejected.
#[tactic(auto, unfolding(crate::specs::Settle::settling, crate::specs::Settle::offered))]
pub fn settle(row: Row, v: &[u8]) -> Judgement
    ensures { result ≡ settling row v.now }
{
    let Some(x) = offered_in(is_bool(row.rule), row.low, row.high, v) else {
        return Judgement::Said(Reply::Reject);
    };
    let y = settle_by(row.rule, x, row.ours);
    Judgement::Settles(y, reply_for(row.rule, y))
}
