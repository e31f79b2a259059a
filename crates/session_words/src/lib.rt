// A session between calls as words: its numbers and its bit maps as two arrays, which the caller keeps.
#![tactic(auto)]

ghost use Rattle.std.specs.Prelude.{◌≡◌, List, ℕ};
ghost use Rattle.words.specs.Words.{flag_word};
ghost use Rattle.session_words.specs.State.{conn_of_words, session_of, window_maps};

use ledger::Ledger;
use session_state::{Conn, Session};
use window::{CONNS, Window};

// The connection of three numbers.
fn conn_of(is_open: u32, next: u32, held: u32) -> Conn
    ensures { result ≡ conn_of_words is_open next held }
{
    Conn {
        is_open: is_open != 0,
        ledger: Ledger { next, held },
    }
}

// Whether a connection is open, as a word.
#[tactic(auto, using(words::proofs::Flags::as_word))]
pub fn open_word(k: Conn) -> u32
    ensures { result ≡ flag_word k.is_open }
{
    u32::from(k.is_open)
}

// The six maps of a window.
pub fn maps_of(w: Window) -> [u64; 6]
    ensures { result ≡ window_maps w }
{
    let o = w.origins;
    [w.held, w.voided, o[0], o[1], o[2], o[3]]
}

#[tactic(auto, unfolding(crate::specs::State::session_of))]
fn window_of(n: &[u32; 15], m: &[u64; 6]) -> Window
    ensures { result ≡ (session_of n.now m.now).window }
{
    Window {
        next: n[1],
        handed: n[2],
        held: m[0],
        voided: m[1],
        origins: [m[2], m[3], m[4], m[5]],
    }
}

// Word by word, as `session_of` and the header have them: a map over the places would hide which word is which.
#[tactic(auto, unfolding(crate::specs::State::session_of))]
fn conns_of(n: &[u32; 15]) -> [Conn; CONNS]
    ensures { (m : List ℕ) → result ≡ (session_of n.now m).conns }
{
    [
        conn_of(n[3], n[4], n[5]),
        conn_of(n[6], n[7], n[8]),
        conn_of(n[9], n[10], n[11]),
        conn_of(n[12], n[13], n[14]),
    ]
}

// The session that the numbers and the maps are. They travel apart, since they are two arrays of C's `drawbevel_session`.
pub fn load(n: &[u32; 15], m: &[u64; 6]) -> Session
    ensures { result ≡ session_of n.now m.now }
{
    Session {
        level: n[0],
        window: window_of(n, m),
        conns: conns_of(n),
    }
}
