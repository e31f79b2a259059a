// A take from the command window: the next command, a void number, or nothing.
#![tactic(auto)]

ghost use Rattle.std.specs.Prelude.{◌≡◌, ◌+◌, ◌/◌, ◌≤◌, min, map, length};
ghost use Rattle.store.specs.Slot.{header_size};
ghost use Rattle.window.specs.Book.{Book, remembered, Call, handed_on};
ghost use Rattle.window.specs.Agree.{Agrees, Did, Commands, commands, state, take_answer};

use window::{CONNS, Taken, WINDOW_BYTES, WINDOW_SLOTS, Window, origin_at, slot_of};

// How many hand-outs are remembered: 2^31.
const REMEMBERED: u32 = 2147483648;

// No Step<A>: see `window_offer::OfferStep`.
#[derive(Clone, Copy)]
pub struct TakeStep {
    pub answer: Taken,
    pub window: Window,
}

// Takes the next command: R if it is held, its header into the first 48 bytes of out, or void; else nothing. Out is a slice: see
// `store::put`.
#[tactic(auto,
// The book's step.
unfolding(window::specs::Book::book_step, window::specs::Book::take_step, window::specs::Book::first_place,
// A place, by its bits and its slot.
window::specs::Agree::Maps, window::specs::Agree::held_bit, window::specs::Agree::void_bit, place_map::specs::Bit::bit_at))]
pub fn take(
    w: Window,
    headers: &[u8; WINDOW_BYTES],
    tickets: &[u32; WINDOW_SLOTS],
    out: &mut [u8],
) -> TakeStep
    requires { header_size ≤ length out.old }
    ensures { Did (Call.take out.old)
        (state w (commands headers.now tickets.now))
        (take_answer result.answer) out.new
        (state result.window (commands headers.now tickets.now)) }
{
    if w.held % 2 == 0 {
        return TakeStep {
            answer: Taken::Nothing,
            window: w,
        };
    }
    let next = w.next;
    let after = handed_on(w);
    if w.voided % 2 == 1 {
        return TakeStep {
            answer: Taken::Void(next),
            window: after,
        };
    }
    let slot = slot_of(w, 0);
    let origin = origin_at(w, 0);
    let ticket = tickets[slot];
    store::get(headers, slot * store::HEADER_BYTES, out);
    TakeStep {
        answer: Taken::Command {
            number: next,
            ticket,
            origin,
        },
        window: after,
    }
}

// The window after the first place is handed out.
fn handed_on(w: Window) -> Window
    ensures { (k : Commands) (b : Book) → Agrees (state w k) b → Agrees (state result k) (handed_on b) }
{
    Window {
        next: w.next.wrapping_add(1),
        handed: one_more(w.handed),
        held: w.held >> 1,
        voided: w.voided >> 1,
        origins: halves(w.origins),
    }
}

// Each map without its first place.
fn halves(maps: [u64; CONNS]) -> [u64; CONNS]
    ensures { result ≡ map (λ m. m / 2) maps }
{
    maps.map(|m| m >> 1)
}

// One hand-out more, as far as they are remembered.
fn one_more(handed: u32) -> u32
    ensures { result ≡ min (handed + 1) remembered }
{
    handed.min(REMEMBERED - 1) + 1
}
