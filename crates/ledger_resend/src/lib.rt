// A status that a ledger holds, resent.
#![tactic(auto)]

ghost use Rattle.std.specs.Prelude.{◌<◌, ◌≤◌, length};
ghost use Rattle.store.specs.Slot.{header_size};
ghost use Rattle.ledger.specs.Book.{connections};
ghost use Rattle.ledger.specs.Agree.{statuses_in, Resends};

use ledger::{LEDGER_BYTES, LEDGER_SLOTS, Ledger, Renewal, SLOTS_EACH, STATUSES};
use ledger_held::place_of;
use ledger_renew::renew_for;
use store::HEADER_BYTES;

// Where a header has ExpCmdSN, and MaxCmdSN after it.
const EXP_CMD_SN: usize = 28;

// Resends a held status, with its ticket: its header as it was sent, but for what is renewed. The connection is a number: see `window::CONNECTIONS`.
// Out is a slice: see `store::put`.
pub fn resend(
    l: Ledger,
    c: usize,
    stat_sn: u32,
    renewal: Renewal,
    headers: &[u8; LEDGER_BYTES],
    tickets: &[u32; LEDGER_SLOTS],
    out: &mut [u8],
) -> Option<u32>
    requires { (c < connections) × (header_size ≤ length out.old) }
    ensures { Resends c l stat_sn renewal
        (statuses_in headers.now tickets.now) out.old
        result out.new }
{
    let place = place_of(l, stat_sn);
    if l.held <= place {
        return None;
    }
    let slot = c * SLOTS_EACH + (stat_sn % STATUSES) as usize;
    store::get(headers, slot * HEADER_BYTES, out);
    renew_for(renewal.numbering, out);
    let numbers = field::pair(renewal.exp_cmd_sn, renewal.max_cmd_sn);
    field::put(out, EXP_CMD_SN, numbers);
    Some(tickets[slot])
}
