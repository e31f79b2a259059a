// One login request, whole: the one entry of the login phase.
ghost use Rattle.std.specs.Prelude.{◌≡◌, ◌≤◌, length};
ghost use Rattle.login_book.specs.Login.{request_step, login_step};
ghost use Rattle.login_types.specs.Agree.{book_of, Answers};
ghost use Rattle.login.specs.Promises.{ReadAs, FoundAs};

use keys::judge::Context;
use login_answer::answer::{end, finish};
use login_answer::checks::{MAX_TEXT, status_of};
use login_answer::gathered::gathered_step;
use login_gather::gather::judge_request;
use login_types::state::{State, Step};
use refusal::Refusal;
use request_header::{LIMITS, Login, Request};
use request_pdu::read;
use text::slice::append;

// A Login request with this data. The login and the request stay two parameters, for the one is kept and the other came. C lends the gather
// area and the text output apart, each of any length from 8192 on; an array would fix that length.
#[tactic(auto, using(crate::proofs::Answers::step_fits), unfolding(login_book::specs::Login::request_step))]
fn request_step(
    l: State,
    q: Login,
    piece: &[u8],
    live: u16,
    new: u16,
    ours: &[u8],
    gather: &mut [u8],
    text: &mut [u8],
) -> Step
    requires { (8192 ≤ length gather.old) × (8192 ≤ length text.old) × (new ≡ 0 → ⊥) }
    ensures { Answers l result gather.new text.new (request_step (book_of l) q piece.now live new ours.now gather.old text.old) }
{
    if let Err(status) = status_of(l, q, piece.len(), live) {
        return end(l, status);
    }
    let at = l.gathered as usize;
    if q.continues {
        let n = append(gather, at, piece);
        return gathered_step(l, q, n);
    }
    let by = Context {
        stage: q.csg,
        leading: q.tsih == 0,
        ours,
    };
    let j = judge_request(l.settled, l.judged, &by, at, piece, gather, text);
    finish(l, q, new, j)
}

// A Login, and where its data lies in the PDU: places, as the PDU that was read has them.
#[derive(Clone, Copy)]
struct Found {
    login: Login,
    start: usize,
    length: usize,
}

// The Login that a PDU is read as: FIELD where it is none.
#[tactic(auto, using(crate::proofs::Answers::read_zero))]
fn read_login(pdu: &[u8], new: u16) -> Result<Found, Refusal>
    ensures { ReadAs new pdu.now result }
{
    let p = read(pdu, LIMITS)?;
    if new == 0 {
        return Err(Refusal::Field);
    }
    if let Request::Login(login) = p.request {
        return Ok(Found {
            login,
            start: p.data_start,
            length: p.data_segment_length,
        });
    }
    Err(Refusal::Field)
}

// The refusals before a request is looked at: areas of these lengths, and a login that is over or not.
fn find_login(
    over: bool,
    new: u16,
    gather: usize,
    text: usize,
    pdu: &[u8],
) -> Result<Found, Refusal>
    ensures { FoundAs over new gather text pdu.now result }
{
    if (gather < MAX_TEXT) | (text < MAX_TEXT) {
        return Err(Refusal::Buffer);
    }
    if over {
        return Err(Refusal::Closed);
    }
    read_login(pdu, new)
}

// One request of a login: `pdu` whole, the handle of the live session (0 for none) and the new handle (0 is FIELD), both numbers as C and
// `login_step` have them, our target name, the gather area that this login uses, and the text output.
pub fn login_request(
    l: State,
    pdu: &[u8],
    live: u16,
    new: u16,
    ours: &[u8],
    gather: &mut [u8],
    text: &mut [u8],
) -> Step
    ensures { Answers l result gather.new text.new (login_step (book_of l) pdu.now live new ours.now gather.old text.old) }
{
    match find_login(l.over, new, gather.len(), text.len(), pdu) {
        Err(why) => Step {
            state: l,
            answer: Err(why),
        },
        Ok(f) => {
            let end = f.start + f.length;
            request_step(
                l,
                f.login,
                &pdu[f.start..end],
                live,
                new,
                ours,
                gather,
                text,
            )
        }
    }
}
