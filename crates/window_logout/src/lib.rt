// The effect of a logout on the command window: what becomes void, what is emptied, and what loses its origin.
#![tactic(auto)]

ghost use Rattle.std.specs.Prelude.{◌≡◌, [], get_or, set, eqb, ltb};
ghost use Rattle.field.specs.Field.{pick};
ghost use Rattle.place_map.specs.Bit.{without, each_without};
ghost use Rattle.window.specs.Book.{connections, Call, Answer, close_session, recovery};
ghost use Rattle.window.specs.Agree.{Did, Commands, state};

use window::{CONNS, Window};

// Logout reasons (RFC 7143, 11.14.1): the session is closed; the connection is removed for recovery. Any other reason
// here closes the connection, so that a reason stays its number and no call can be refused for it.
pub const CLOSE_SESSION: u8 = 0;

pub const RECOVERY: u8 = 2;

#[derive(Clone, Copy)]
pub struct LogoutStep {
    pub emptied: u32,
    pub voided: u32,
    pub window: Window,
}

// The effect of a logout of connection conn, with the ExpCmdSN from before it: of the commands that it concerns those
// before ExpCmdSN become void, or lose their origin with reason 2, and those after are emptied.
pub fn logout(w: Window, conn: u32, reason: u8) -> LogoutStep
    ensures { (k : Commands)
        → Did (Call.logout conn reason)
        (state w k)
        (Answer.logged_out result.emptied result.voided) []
        (state result.window k) }
{
    let gapless = place_map::gapless(w.held);
    let before = place_map::below(gapless);
    let concerned = concerned_by(w, conn, reason);
    let emptied = concerned & !before;
    let voided = newly_voided(concerned & before, w.voided, reason);
    let origins = origins_left(w.origins, conn, reason, emptied);
    LogoutStep {
        emptied: emptied.count_ones(),
        voided: voided.count_ones(),
        window: Window {
            held: w.held & !emptied,
            voided: (w.voided | voided) & !emptied,
            origins,
            ..w
        },
    }
}

// The commands that a logout concerns: all that are held with reason 0, else the connection's own.
fn concerned_by(w: Window, conn: u32, reason: u8) -> u64
    ensures { result ≡ pick (eqb reason close_session) w.held (get_or w.origins conn 0) }
{
    if reason == CLOSE_SESSION {
        w.held
    } else {
        origin_maps::of(w.origins, conn)
    }
}

// Of the commands before ExpCmdSN that a logout concerns those that become void.
#[tactic(auto, unfolding(place_map::specs::Bit::without))]
fn newly_voided(before: u64, voided: u64, reason: u8) -> u64
    ensures { result ≡ pick (eqb reason recovery) 0 (without before voided) }
{
    if reason == RECOVERY {
        0
    } else {
        before & !voided
    }
}

// The origins after a logout: with reason 2 nothing is the connection's own any more.
fn origins_left(origins: [u64; CONNS], conn: u32, reason: u8, emptied: u64) -> [u64; CONNS]
    ensures { result ≡ pick (eqb reason recovery) (pick (ltb conn connections) (set origins conn 0) origins) (each_without origins emptied) }
{
    if reason == RECOVERY {
        origin_maps::without_origin(origins, conn)
    } else {
        origin_maps::each_without(origins, emptied)
    }
}
