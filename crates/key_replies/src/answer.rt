// The answer to a judged pair, put after the first bytes of an output.
ghost use Rattle.std.specs.Prelude.{◌≡◌, ◌+◌, ◌≤◌, length};
ghost use Rattle.text.specs.Text.{Appended};
ghost use Rattle.key_replies.specs.Answer.{reply_in, reply_bytes, answer_from};

use key_values::value::{Judgement, Reply};
use text::slice::append;
use text_number::number::put_decimal;

// A reply: its word, or its number in decimal, at most the 13 bytes of NotUnderstood. Each word is appended by its own arm: by one call, after
// a match that gives the word, a pair with a word took 12 to 13 ns and not 7 to 8.
#[tactic(auto, unfolding(crate::specs::Answer::reply_bytes))]
fn put_reply(out: &mut [u8], at: usize, reply: Reply) -> usize
    requires { at + 13 ≤ length out.old }
    ensures { Appended out.old at (reply_bytes reply) out.new result }
{
    match reply {
        Reply::Silent => append(out, at, b""),
        Reply::Reject => append(out, at, b"Reject"),
        Reply::NotUnderstood => append(out, at, b"NotUnderstood"),
        Reply::Yes => append(out, at, b"Yes"),
        Reply::No => append(out, at, b"No"),
        Reply::None => append(out, at, b"None"),
        Reply::Rfc3720 => append(out, at, b"RFC3720"),
        Reply::Number(n) => put_decimal(out, at, n),
    }
}

// What a judged pair is answered: nothing where a status refuses it.
fn reply_of(j: Result<Judgement, u16>) -> Reply
    ensures { result ≡ reply_in j }
{
    match j {
        Ok(Judgement::Said(reply) | Judgement::Settles(_, reply)) => reply,
        Err(_) => Reply::Silent,
    }
}

// What a judged pair adds to the answer: the name and =, which are given, the reply and a zero byte; nothing for a good declaration, and nothing
// where a status refuses it.
#[tactic(auto, using(crate::proofs::Said::reply_length))]
pub fn put_said(out: &mut [u8], at: usize, start: &[u8], j: Result<Judgement, u16>) -> usize
    requires { (length start.now ≤ 64) × (at + 78 ≤ length out.old) }
    ensures { Appended out.old at (answer_from start.now (reply_in j)) out.new result }
{
    match reply_of(j) {
        Reply::Silent => at,
        reply => {
            let named = append(out, at, start);
            let end = put_reply(out, named, reply);
            append(out, end, b"\0")
        }
    }
}
