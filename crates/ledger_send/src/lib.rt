// A send on a connection: the header written, and the status stored in its ledger.
#![tactic(auto)]

ghost use Rattle.std.specs.Prelude.{◌<◌, ◌≤◌, length};
ghost use Rattle.store.specs.Slot.{header_size};
ghost use Rattle.ledger.specs.Book.{connections};
ghost use Rattle.ledger.specs.Agree.{statuses_in, Sends};

use ledger::{LEDGER_BYTES, LEDGER_SLOTS, Ledger, STATUSES, Sent};
use ledger_keep::keep;
use ledger_kinds::is_status;
use refusal::Refusal;
use response_header::judge::judge;
use response_header::{Numbers, Response};

// Sends a response on connection c: its header, with the next StatSN and both window numbers, into the first 48 bytes
// of out, and header and ticket into the ledger. Writing's refusals, with the longest data written, come first, then FIELD
// where the response isn't one that is due, then FULL. The connection is a number: see `window::CONNECTIONS`. Out is a slice: see `store::put`.
pub fn send(
    l: Ledger,
    c: usize,
    ticket: u32,
    r: Response,
    max_data: u32,
    due: bool,
    exp_cmd_sn: u32,
    max_cmd_sn: u32,
    out: &mut [u8],
    headers: &mut [u8; LEDGER_BYTES],
    tickets: &mut [u32; LEDGER_SLOTS],
) -> Result<Sent, Refusal>
    requires { (c < connections) × (header_size ≤ length out.old) }
    ensures { Sends c l ticket r max_data due exp_cmd_sn max_cmd_sn
        out.old (statuses_in headers.old tickets.old)
        result out.new (statuses_in headers.new tickets.new) }
{
    judge(r, max_data)?;
    if !due {
        return Err(Refusal::Field);
    }
    let stat_sn = l.next;
    let n = Numbers {
        stat_sn,
        exp_cmd_sn,
        max_cmd_sn,
    };
    let o = response_fields::own_fields(r);
    if !is_status(r) {
        response_writer::place(out, 0, o, n);
        return Ok(Sent {
            stat_sn,
            ledger: None,
        });
    }
    if STATUSES <= l.held {
        return Err(Refusal::Full);
    }
    response_writer::place(out, 0, o, n);
    let ledger = keep(l, c, ticket, o, n, headers, tickets);
    Ok(Sent {
        stat_sn,
        ledger: Some(ledger),
    })
}
