// A fresh session on words: its numbers and maps, and its arrays.
#![tactic(auto)]

ghost use Rattle.window.specs.Agree.{commands};
ghost use Rattle.ledger.specs.Agree.{statuses_in};
ghost use Rattle.call_words.specs.Given.{given_of};
ghost use Rattle.call_words.specs.Session.{session_words, FreshWords};

use book::{Given, Opening};
use ledger::{LEDGER_BYTES, LEDGER_SLOTS};
use session::FreshSession;
use session_kept::store;
use window::{WINDOW_BYTES, WINDOW_SLOTS};

// A fresh session: its first command number, connection 0's first StatSN, the ErrorRecoveryLevel.
pub fn fresh(
    n: &mut [u32; 15],
    m: &mut [u64; 6],
    headers: &mut [u8; WINDOW_BYTES],
    tickets: &mut [u32; WINDOW_SLOTS],
    statuses: &mut [u8; LEDGER_BYTES],
    status_tickets: &mut [u32; LEDGER_SLOTS],
    first: u32,
    stat_sn: u32,
    level: u8,
)
    ensures { FreshWords (given_of first stat_sn level)
        (session_words n.new m.new (commands headers.new tickets.new)
        (statuses_in statuses.new status_tickets.new)) }
{
    let f = session::fresh(Given {
        first,
        level,
        opening: Opening { stat_sn },
    });
    let FreshSession {
        session: s,
        headers: h,
        tickets: t,
        statuses: hs,
        status_tickets: ts,
    } = f;
    *headers = h;
    *tickets = t;
    *statuses = hs;
    *status_tickets = ts;
    store(n, m, s);
}
