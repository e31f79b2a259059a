// The pairs of a block, judged left to right and answered in their order; the first refusal decides.
ghost use Rattle.std.specs.Prelude.{◌≡◌, ◌+◌, ◌≤◌, length, take};
ghost use Rattle.text.specs.Text.{pick};
ghost use Rattle.text_block.specs.Block.{formed};
ghost use Rattle.login_block.specs.Promises.{PairOf, FirstOf, JudgedAs};
ghost use Rattle.login_types.specs.Agree.{keys_of};

use key_lookup::key_of;
use key_replies::answer::put_said;
use key_settled::settle_pair;
use key_table::parameters::Settled;
use key_table::table::Key;
use keys::judge::{Context, judge_pair};
use text_block::block::{MAX_PAIRS, Span, cut_pair, name_good, well_formed};

// A first pair of a good form: its key if its name is known, and where its name and its value end. Places, as in
// text_block's Span.
#[derive(Clone, Copy)]
struct Pair {
    key: Option<Key>,
    eq: usize,
    end: usize,
}

// The first pair of what is left, if its form is good. A known key's name has a good form, so only another name is looked at byte by byte.
#[tactic(auto, using(crate::proofs::Blocks::pair_form))]
fn pair_in(rest: &[u8]) -> Option<Pair>
    ensures { PairOf rest.now result }
{
    let Ok(Span { eq, end }) = cut_pair(rest) else {
        return None;
    };
    let name = &rest[..eq];
    let key = key_of(name);
    if key.is_some() || name_good(name) {
        Some(Pair { key, eq, end })
    } else {
        None
    }
}

// A judged and answered first pair: the count of answered bytes, and where the pair ends, a place as in Span.
#[derive(Clone, Copy)]
struct First {
    count: usize,
    end: usize,
}

// The first pair of what is left, judged and answered. The status of one whose form is not good, or that is refused, which leaves all as it was.
#[tactic(auto, using(crate::proofs::Blocks::pair_ends))]
fn judge_first(
    settled: &mut Settled,
    by: &Context<'_>,
    rest: &[u8],
    out: &mut [u8],
    at: usize,
) -> Result<First, u16>
    requires { at + 78 ≤ length out.old }
    ensures { FirstOf (keys_of settled.old) by.now.stage by.now.leading by.now.ours.now rest.now out.old at result (keys_of settled.new) out.new }
{
    let Some(Pair { key, eq, end }) = pair_in(rest) else {
        return Err(0x0200);
    };
    let j = judge_pair(&settled.seen, by, key, &rest[eq + 1..end])?;
    settle_pair(
        &mut settled.seen,
        &mut settled.parameters.values,
        key,
        Ok(j),
    );
    let count = put_said(out, at, &rest[..eq + 1], Ok(j));
    Ok(First { count, end })
}

// A judged block: what is settled after it, and the status that refuses it or how many bytes of the output answer it.
#[derive(Clone, Copy)]
pub struct Judged {
    pub settled: Settled,
    pub verdict: Result<usize, u16>,
}

// The status of a block with a refused pair: a breach of its form anywhere comes first. It is 0x0200 too, so where the pair's is, the form isn't
// looked at: it may be what refused the pair.
fn pair_status(block: &[u8], status: u16) -> u16
    ensures { result ≡ pick (formed 64 block.now) status 0x0200 }
{
    if status == 0x0200 {
        return 0x0200;
    }
    if well_formed(block) { status } else { 0x0200 }
}

// A block, its form looked at pair by pair as it is judged; its answer is put after the first `start` bytes of the output.
// A refused block leaves the keys and the output as the pairs left of the refused one did; the caller keeps neither.
pub fn judge_block(
    settled: &mut Settled,
    by: &Context<'_>,
    block: &[u8],
    out: &mut [u8],
    start: usize,
) -> Result<usize, u16>
    requires { start + 4992 ≤ length out.old }
    ensures { JudgedAs by.now.stage by.now.leading by.now.ours.now (keys_of settled.old) (take start out.old) block.now out.old
        result (keys_of settled.new) out.new }
{
    let mut count = start;
    let mut rest = block;
    let mut left = MAX_PAIRS;
    // No for over 64 pairs, as text_block's well_formed has: what is left would be tested again after it, and here the 65th pair is refused where
    // it stands.
    while !rest.is_empty() {
        if left == 0 {
            return Err(0x0200);
        }
        match judge_first(settled, by, rest, out, count) {
            Ok(f) => {
                count = f.count;
                rest = &rest[f.end + 1..];
                left -= 1;
            }
            Err(status) => {
                return Err(pair_status(block, status));
            }
        }
    }
    Ok(count)
}
