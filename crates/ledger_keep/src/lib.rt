// The storing of a status in its connection's ledger.
#![tactic(auto)]

ghost use Rattle.std.specs.Prelude.{◌<◌};
ghost use Rattle.response_layout.specs.WholeNumbers.{own_bytes};
ghost use Rattle.ledger.specs.Book.{statuses, connections};
ghost use Rattle.ledger.specs.Agree.{statuses_in, Stored};

use ledger::{LEDGER_BYTES, LEDGER_SLOTS, Ledger, SLOTS_EACH, STATUSES};
use response_header::Numbers;
use response_layout::OwnFields;
use store::HEADER_BYTES;

// Stores a status under the next number. The connection is a number: see `window::CONNECTIONS`.
pub fn keep(
    l: Ledger,
    c: usize,
    ticket: u32,
    o: OwnFields,
    n: Numbers,
    headers: &mut [u8; LEDGER_BYTES],
    tickets: &mut [u32; LEDGER_SLOTS],
) -> Ledger
    requires { (c < connections) × (l.held < statuses) }
    ensures { Stored c l ticket (own_bytes o n)
        (statuses_in headers.old tickets.old)
        result (statuses_in headers.new tickets.new) }
{
    let next = l.next;
    let slot = c * SLOTS_EACH + (next % STATUSES) as usize;
    response_writer::place(headers, slot * HEADER_BYTES, o, n);
    tickets[slot] = ticket;
    Ledger {
        next: next.wrapping_add(1),
        held: l.held + 1,
    }
}
