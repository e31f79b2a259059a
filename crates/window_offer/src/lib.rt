// An offer to the command window: kept, duplicate, passed or beyond.
#![tactic(auto)]

ghost use Rattle.std.specs.Prelude.{◌<◌, ◌≤◌, [], length, take};
ghost use Rattle.store.specs.Slot.{header_size};
ghost use Rattle.window.specs.PlaceSlot.{slots};
ghost use Rattle.window.specs.Book.{connections, Call};
ghost use Rattle.window.specs.Agree.{Did, commands, state, Enters, offer_answer};

use window::{Offered, PLACES, WINDOW_BYTES, WINDOW_SLOTS, Window, slot_of};

// A struct beside its call, as each call's answer is: a Step<A> in `window` for this, a take's and a session's would save six lines, to be read
// in another crate.
#[derive(Clone, Copy)]
pub struct OfferStep {
    pub answer: Offered,
    pub window: Window,
}

// Offers a numbered command: kept, duplicate, passed or beyond. What is kept is its header, the first 48 bytes of the
// PDU, with the ticket and the connection. The connection is a number: see `window::CONNECTIONS`.
#[tactic(auto,
// The book's step.
unfolding(window::specs::Book::book_step, window::specs::Book::offer_step, window::specs::Book::offer_at, window::specs::Book::was_handed_out,
// Where a number lies.
window::specs::Book::distance,
// A place, by its bits and its slot.
window::specs::Agree::Maps, window::specs::Agree::held_bit))]
pub fn offer(
    w: Window,
    number: u32,
    ticket: u32,
    conn: u32,
    pdu: &[u8],
    headers: &mut [u8; WINDOW_BYTES],
    tickets: &mut [u32; WINDOW_SLOTS],
) -> OfferStep
    requires { (conn < connections) × (header_size ≤ length pdu.now) }
    ensures { Did (Call.offer number ticket conn (take header_size pdu.now))
        (state w (commands headers.old tickets.old))
        (offer_answer result.answer) []
        (state result.window (commands headers.new tickets.new)) }
{
    let d = number.wrapping_sub(w.next);
    if PLACES <= d {
        // d is 2^32 less how far the number lies behind R.
        if u32::MAX - d < w.handed {
            return OfferStep {
                answer: Offered::Passed,
                window: w,
            };
        }
        return OfferStep {
            answer: Offered::Beyond,
            window: w,
        };
    }
    if place_map::bit(w.held, d) == 1 {
        return OfferStep {
            answer: Offered::Duplicate,
            window: w,
        };
    }
    let slot = slot_of(w, d);
    store::put(headers, slot * store::HEADER_BYTES, pdu);
    tickets[slot] = ticket;
    let after = entered(w, d, conn);
    OfferStep {
        answer: Offered::Kept,
        window: after,
    }
}

// The window with a command of connection conn held at the place d, both numbers as in `offer`.
#[tactic(auto, unfolding(place_map::specs::Bit::with_bit))]
fn entered(w: Window, d: u32, conn: u32) -> Window
    requires { (d < slots) × (conn < connections) }
    ensures { Enters w d conn result }
{
    let place = place_map::only(d);
    Window {
        held: w.held | place,
        origins: origin_maps::with_origin(w.origins, conn, place),
        ..w
    }
}
