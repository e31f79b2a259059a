// Commands of a session: offered on a connection by the initiator, and taken in order by the target. Neither call has a requirement of
// its caller: they refuse. What they give back of the session is its window; `session_state::after_window` puts it in its place.
#![tactic(auto)]

ghost use Rattle.std.specs.Prelude.{◌≡◌, ◌&&◌};
ghost use Rattle.request_header.specs.Request.{read_pdu, request_of};
ghost use Rattle.request_header.specs.Verdicts.{fields_ok};
ghost use Rattle.window.specs.Agree.{commands};
ghost use Rattle.ledger.specs.Agree.{Statuses};
ghost use Rattle.book.specs.Book.{Call, outputs, no_outputs, is_offered, offered_as};
ghost use Rattle.session_state.specs.Agree.{Did, state};
ghost use Rattle.session_commands.specs.Answer.{offered_of, offer_answer, take_answer, after_offer, after_take};

use field::{be32, flag};
use refusal::Refusal;
use request_header::Limits;
use request_refusal::header_of;
use request_rules::{logout_ok, nop_out_ok, scsi_command_ok, task_management_ok};
use session_state::{Session, limits_of, reach};
use store::HEADER_BYTES;
use window::{WINDOW_BYTES, WINDOW_SLOTS, Window};
use window_take::TakeStep;

// What becomes of an offered PDU that is not refused: an immediate command is the caller's, a numbered one the window's. No Option: None
// would read as no answer, where the caller has the command.
#[derive(Clone, Copy)]
pub enum Offered {
    Immediate,
    Numbered(window::Offered),
}

// No Step<A>: see `window_offer::OfferStep`.
#[derive(Clone, Copy)]
pub struct OfferStep {
    pub answer: Offered,
    pub window: Window,
}

// Whether a header is of a kind that is offered and meets its rules; another kind is FIELD either way. It stays a match: four kinds have rules of their own,
// task management's by the limits too, so a table of functions would be no plainer.
#[tactic(auto, unfolding(request_header::specs::Request::request_of))]
fn is_offered(s: &[u8; HEADER_BYTES], op: u8, limits: Limits) -> bool
    ensures { result ≡ fields_ok limits op s.now && is_offered (request_of op s.now) }
{
    match op {
        0x00 => nop_out_ok(s),
        0x01 => scsi_command_ok(s),
        0x02 => task_management_ok(s, limits),
        0x06 => logout_ok(s),
        _ => false,
    }
}

// Reads an offered PDU: its CmdSN, or none where I is set. Reading's refusals, FIELD for another kind. Of its fields only these are
// taken from the bytes.
fn read_offer(pdu: &[u8], limits: Limits) -> Result<Option<u32>, Refusal>
    ensures { offered_of result ≡ offered_as (read_pdu limits pdu.now) }
{
    let header = header_of(pdu, limits)?;
    let first = header[0];
    if !is_offered(header, first % 64, limits) {
        return Err(Refusal::Field);
    }
    if flag(first, 64) {
        Ok(None)
    } else {
        Ok(Some(be32(header, 24)))
    }
}

// Offers a whole PDU with its ticket on a connection. NOCONN, CLOSED, reading's refusals, FIELD for another kind.
pub fn offer(
    s: Session,
    conn: u32,
    ticket: u32,
    pdu: &[u8],
    headers: &mut [u8; WINDOW_BYTES],
    tickets: &mut [u32; WINDOW_SLOTS],
) -> Result<OfferStep, Refusal>
    ensures { (ss : Statuses)
        → Did (Call.offer conn ticket pdu.now)
        (state s (commands headers.old tickets.old) ss) (offer_answer result) no_outputs
        (state (after_offer s result) (commands headers.new tickets.new) ss) }
{
    let w = s.window;
    let _ = reach(s, conn)?;
    let Some(n) = read_offer(pdu, limits_of(s, conn))? else {
        return Ok(OfferStep {
            answer: Offered::Immediate,
            window: w,
        });
    };
    let step = window_offer::offer(w, n, ticket, conn, pdu, headers, tickets);
    Ok(OfferStep {
        answer: Offered::Numbered(step.answer),
        window: step.window,
    })
}

// Takes the next command, its header into the first 48 bytes of out. BUFFER.
pub fn take(
    s: Session,
    headers: &[u8; WINDOW_BYTES],
    tickets: &[u32; WINDOW_SLOTS],
    out: &mut [u8],
) -> Result<TakeStep, Refusal>
    ensures { (ss : Statuses)
        → Did (Call.take (outputs out.old))
        (state s (commands headers.now tickets.now) ss) (take_answer result) (outputs out.new)
        (state (after_take s result) (commands headers.now tickets.now) ss) }
{
    if out.len() < HEADER_BYTES {
        return Err(Refusal::Buffer);
    }
    Ok(window_take::take(s.window, headers, tickets, out))
}
