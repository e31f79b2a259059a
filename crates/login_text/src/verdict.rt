// A block, judged and answered into the text output; a refusal leaves the output and what was settled as they were.
ghost use Rattle.std.specs.Prelude.{◌≡◌, ◌||◌, ◌≤◌, length};
ghost use Rattle.text.specs.Text.{Appended};
ghost use Rattle.login_book.specs.Keys.{named};
ghost use Rattle.login_book.specs.Login.{start_text};
ghost use Rattle.login_block.specs.Promises.{count_of};
ghost use Rattle.login_types.specs.Agree.{keys_of};
ghost use Rattle.login_text.specs.Promises.{verdict_after, text_after, settled_after, block_result, Written};

use key_table::parameters::Settled;
use key_table::table::Key;
use keys::judge::Context;
use login_block::block::{Judged, judge_block};
use text::slice::append;
use text_block::block::MAX_PAIRS;

// The longest answer: the portal group's 23 bytes and 64 pairs of 78.
const MAX_ANSWER: usize = 23 + MAX_PAIRS * 78;

// The first judged block's answer starts with our portal group.
#[tactic(auto, unfolding(login_book::specs::Login::start_text))]
fn start_text(out: &mut [u8], judged: bool) -> usize
    requires { 23 ≤ length out.old }
    ensures { Appended out.old 0 (start_text judged) out.new result }
{
    if judged {
        return 0;
    }
    append(out, 0, b"TargetPortalGroupTag=1\0")
}

// Both names came.
#[tactic(auto, unfolding(login_book::specs::Keys::named, key_table::specs::Table::key_of, key_table::specs::Table::known, text::specs::Text::same))]
fn is_named(s: &Settled) -> bool
    ensures { result ≡ named (keys_of s.now) }
{
    s.seen[Key::InitiatorName as usize] & s.seen[Key::TargetName as usize]
}

// Only an answer that is whole goes into the text output; the first judged block needs both names.
fn put_answer(
    v: Result<usize, u16>,
    named: bool,
    answer: &[u8],
    text: &mut [u8],
) -> Result<usize, u16>
    requires { (count_of v ≤ length answer.now) × (length answer.now ≤ length text.old) }
    ensures { (result ≡ verdict_after named v) × (text.new ≡ text_after (verdict_after named v) answer.now text.old) }
{
    let n = v?;
    if !named {
        return Err(0x0207);
    }
    append(text, 0, &answer[..n]);
    Ok(n)
}

// A refused block settles nothing, also not the pairs left of the refused one.
fn settled_after(v: Result<usize, u16>, s: Settled, t: Settled) -> Settled
    ensures { result ≡ settled_after v s t }
{
    match v {
        Err(_) => s,
        Ok(_) => t,
    }
}

// The pairs of the block and the names, after s was settled. C lends a text output of any length from 8192 on, and an array would be of exactly that.
#[tactic(auto, using(crate::proofs::Written::start_fits))]
pub fn judge_text(
    s: Settled,
    judged: bool,
    by: &Context<'_>,
    block: &[u8],
    text: &mut [u8],
) -> Judged
    requires { 8192 ≤ length text.old }
    ensures { Written (block_result judged by.now.stage by.now.leading by.now.ours.now (keys_of s) block.now) s result text.old text.new }
{
    let mut scratch = [0u8; MAX_ANSWER];
    let at = start_text(&mut scratch, judged);
    let mut reached = s;
    let v = judge_block(&mut reached, by, block, &mut scratch, at);
    let named = judged | is_named(&reached);
    let verdict = put_answer(v, named, &scratch, text);
    let settled = settled_after(verdict, s, reached);
    Judged { settled, verdict }
}
