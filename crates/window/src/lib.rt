// The command window (RFC 7143, 4.2.2.1): R, the next CmdSN to hand out, and the 64 places from R on. What a call
// changes is a small struct by value and two arrays that the caller lends: a place's header and ticket lie in its slot,
// and stay there while the place moves to the front, so that handing out moves no bytes. The calls stand above:
// `window_offer`, `window_take`, `window_logout`.
#![tactic(auto)]

ghost use Rattle.std.specs.Prelude.{◌≡◌, ◌<◌, slice_index_or};
ghost use Rattle.window.specs.PlaceSlot.{slots, slot_of};
ghost use Rattle.window.specs.Book.{Book, empty, exp_cmd_sn_of, max_cmd_sn_of};
ghost use Rattle.window.specs.Agree.{Agrees, IsFresh, OriginAt, Commands, state, origin_of};

use store::HEADER_BYTES;

// The numbers from R on that may be held.
pub const PLACES: u32 = 64;

// The slots of the lent arrays, and the bytes that these take. Headers and tickets travel apart, since they are two arrays of C's `drawbevel_session`: a
// struct of both would be made at each call only to be taken apart below.
pub const WINDOW_SLOTS: usize = PLACES as usize;

pub const WINDOW_BYTES: usize = WINDOW_SLOTS * HEADER_BYTES;

// The connections of a session, as a bound on their numbers and as a length. A connection's number stays a number, and what is called after
// `session_state::reach` asks that it be below these: reach tests it by its match, and a type of such numbers would be made by a second test, or
// travel through every answer of reach.
pub const CONNECTIONS: u32 = 4;

pub const CONNS: usize = CONNECTIONS as usize;

#[derive(Clone, Copy)]
pub struct Window {
    // R.
    pub next: u32,
    // The count of hand-outs, up to 2^31.
    pub handed: u32,
    // The places that are held, and of these the void ones.
    pub held: u64,
    pub voided: u64,
    // The held places whose origin is connection 0, 1, 2, 3.
    pub origins: [u64; CONNS],
}

// A fresh window with its arrays.
#[derive(Clone, Copy)]
pub struct FreshWindow {
    pub window: Window,
    pub headers: [u8; WINDOW_BYTES],
    pub tickets: [u32; WINDOW_SLOTS],
}

#[derive(Clone, Copy)]
pub enum Offered {
    Kept,
    Duplicate,
    Passed,
    Beyond,
}

// What a take hands out. Three answers, none of them a refusal: as an Option it would hold a second enum, void or
// command, to be matched again.
#[derive(Clone, Copy)]
pub enum Taken {
    Nothing,
    Void(u32),
    Command {
        number: u32,
        ticket: u32,
        // The connection that the command came on, if it is still its own.
        origin: Option<u32>,
    },
}

// A window whose first number is given: 64 headers of 48 bytes, all zero, and nothing held.
pub fn fresh(first: u32) -> FreshWindow
    ensures { IsFresh first result }
{
    let window = Window {
        next: first,
        handed: 0,
        held: 0,
        voided: 0,
        origins: [0u64; CONNS],
    };
    FreshWindow {
        window,
        headers: [0u8; WINDOW_BYTES],
        tickets: [0u32; WINDOW_SLOTS],
    }
}

// ExpCmdSN: R plus the count of held numbers without a gap from R.
pub fn exp_cmd_sn(w: Window) -> u32
    ensures { (k : Commands) (b : Book) → Agrees (state w k) b → result ≡ exp_cmd_sn_of b }
{
    w.next.wrapping_add(place_map::gapless(w.held))
}

// MaxCmdSN: R plus 63.
#[tactic(auto, unfolding(crate::specs::Book::max_cmd_sn_of))]
pub fn max_cmd_sn(w: Window) -> u32
    ensures { (k : Commands) (b : Book) → Agrees (state w k) b → result ≡ max_cmd_sn_of b }
{
    w.next.wrapping_add(PLACES - 1)
}

// The origin of the command at the place d from R on, if one is held there.
pub fn origin_at(w: Window, d: u32) -> Option<u32>
    requires { d < slots }
    ensures { (k : Commands) (b : Book) → Agrees (state w k) b → OriginAt (origin_of result) (slice_index_or b.held d empty) }
{
    let maps = w.origins;
    (0..CONNECTIONS).find(|c| place_map::bit(maps[*c as usize], d) == 1)
}

// The slot of the place d from R on.
#[tactic(auto, unfolding(crate::specs::PlaceSlot::slot_of))]
pub fn slot_of(w: Window, d: u32) -> usize
    ensures { (result ≡ slot_of w d) × (result < slots) }
{
    let number = w.next.wrapping_add(d);
    (number as usize) % WINDOW_SLOTS
}
