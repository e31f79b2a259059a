// A connection's status ledger: the next StatSN and the statuses that are sent and not acknowledged. What a call changes
// is a small struct by value and two arrays that the caller lends, which the four connections share: connection c has
// the slots from 32 * c on, and a status lies in the slot of its number modulo 32. The calls stand above: `ledger_send`;
// `ledger_held` and `ledger_resend` for what is held.
#![tactic(auto)]

ghost use Rattle.ledger.specs.Agree.{Opened};

use store::HEADER_BYTES;
use task_book::Numbering;

// The statuses that a ledger can hold, and its slots.
pub const STATUSES: u32 = 32;

pub const SLOTS_EACH: usize = STATUSES as usize;

// The statuses of four connections, and the bytes that their headers take. Headers and tickets travel apart, as the window's do: they are two arrays
// of C's `drawbevel_session`.
pub const LEDGER_SLOTS: usize = 4 * SLOTS_EACH;

pub const LEDGER_BYTES: usize = LEDGER_SLOTS * HEADER_BYTES;

// The ledger of an open connection.
#[derive(Clone, Copy)]
pub struct Ledger {
    // The StatSN of the next status.
    pub next: u32,
    // How many statuses are held, those before the next.
    pub held: u32,
}

// What a resend renews of the header that was sent.
#[derive(Clone, Copy)]
pub struct Renewal {
    pub exp_cmd_sn: u32,
    pub max_cmd_sn: u32,
    // The numbering of the task whose record is given, for a SCSI Response: its ExpDataSN, and the tag of a SNACK of type 3.
    pub numbering: Numbering,
}

// What a send wrote.
#[derive(Clone, Copy)]
pub struct Sent {
    pub stat_sn: u32,
    // The connection's ledger after a status; none for a NOP-In that is no status.
    pub ledger: Option<Ledger>,
}

// What an acknowledgement released: how many statuses, and the ledger after it.
#[derive(Clone, Copy)]
pub struct Released {
    pub count: u32,
    pub ledger: Ledger,
}

// A run of held statuses: its first number, and how many.
#[derive(Clone, Copy)]
pub struct Run {
    pub first: u32,
    pub count: u32,
}

// The ledger of a connection that is opened with this first StatSN: it holds nothing.
#[tactic(auto, unfolding(crate::specs::Book::fresh_ledger, crate::specs::Book::lookup, crate::specs::Agree::SlotHas))]
pub fn opened(first: u32) -> Ledger
    ensures { Opened result first }
{
    Ledger {
        next: first,
        held: 0,
    }
}
