// Text that comes in pieces: gathered while C is set, joined to the last piece, and judged as one block.
ghost use Rattle.std.specs.Prelude.{◌≡◌, ◌+◌, ◌≤◌, length, take};
ghost use Rattle.login_gather.specs.Promises.{block_of, Joined, undone, JudgedIn};

use key_table::parameters::Settled;
use keys::judge::Context;
use login_block::block::Judged;
use login_text::verdict::judge_text;
use text::slice::append;

// The block to judge: the request's own data if nothing was gathered, and the gathered bytes otherwise. A form that a rule names
// (docs/RULES.md), and so the count beside the area.
#[tactic(auto, unfolding(crate::specs::Promises::block_of))]
fn block_of<'a>(piece: &'a [u8], gather: &'a [u8], gathered: usize) -> &'a [u8]
    requires { gathered ≤ length gather.now }
    ensures { result.now ≡ block_of piece.now gather.now gathered }
{
    if gathered == 0 {
        piece
    } else {
        &gather[..gathered]
    }
}

// The piece joined to the gathered bytes; what stood in its place is kept, for a refusal leaves the area as it was.
fn join(gather: &mut [u8], at: usize, piece: &[u8], kept: &mut [u8]) -> usize
    requires { (at + length piece.now ≤ length gather.old) × (length piece.now ≤ length kept.old) }
    ensures { Joined gather.old at piece.now gather.new kept.new result }
{
    let n = piece.len();
    let end = at + n;
    append(kept, 0, &gather[at..end]);
    append(gather, at, piece)
}

// What was kept is put back where the block is refused. The area that keeps is of fixed length, and its first n bytes count.
fn undo(v: Result<usize, u16>, gather: &mut [u8], at: usize, n: usize, kept: &[u8])
    requires { (at + n ≤ length gather.old) × (n ≤ length kept.now) }
    ensures { gather.new ≡ undone v gather.old at (take n kept.now) }
{
    if v.is_err() {
        append(gather, at, &kept[..n]);
    }
}

// A request without C, after `at` gathered bytes: its block is judged and answered. Nothing is copied where nothing was gathered.
// C lends a gather area and a text output of any length from 8192 on, and an array would be of exactly that.
pub fn judge_request(
    s: Settled,
    judged: bool,
    by: &Context<'_>,
    at: usize,
    piece: &[u8],
    gather: &mut [u8],
    text: &mut [u8],
) -> Judged
    requires { (8192 ≤ length gather.old) × (8192 ≤ length text.old) × (at + length piece.now ≤ 8192) }
    ensures { JudgedIn judged by.now.stage by.now.leading by.now.ours.now s at piece.now result gather.old text.old gather.new text.new }
{
    if at == 0 {
        return judge_text(s, judged, by, block_of(piece, gather, at), text);
    }
    // As long as a piece may be (login_answer has MAX_TEXT, which stands beside this crate and not below).
    let mut kept = [0u8; 8192];
    let total = join(gather, at, piece, &mut kept);
    let j = judge_text(s, judged, by, block_of(piece, gather, total), text);
    undo(j.verdict, gather, at, piece.len(), &kept);
    j
}
