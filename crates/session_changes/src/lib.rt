// What a call changes of a session's words: what is new is written, every other word stays.
#![tactic(auto)]

ghost use Rattle.std.specs.Prelude.{◌≡◌, ◌<◌, List, ℕ};
ghost use Rattle.book.specs.Book.{connections};
ghost use Rattle.session_state.specs.After.{after_window, after_conns, after_conn, after_ledger};
ghost use Rattle.session_connections.specs.After.{closing};
ghost use Rattle.session_words.specs.State.{session_of, window_maps};
ghost use Rattle.session_changes.specs.Changes.{conn_place, window_numbers, ledger_numbers, conn_numbers, shut_numbers};

use ledger::Ledger;
use session_connections::Closes;
use session_state::Conn;
use session_words::{maps_of, open_word};
use window::{CONNECTIONS, Window};

// Where a connection has its three numbers.
fn conn_place(conn: u32) -> usize
    requires { conn < connections }
    ensures { result ≡ conn_place conn }
{
    3 + 3 * (conn as usize)
}

// Keeps a window.
#[tactic(auto, using(crate::proofs::Kept::window_kept))]
pub fn store_window(n: &mut [u32; 15], m: &mut [u64; 6], w: Window)
    ensures { (n.new ≡ window_numbers w n.old) × (m.new ≡ window_maps w)
        × (session_of n.new m.new ≡ after_window (session_of n.old m.old) w) }
{
    n[1] = w.next;
    n[2] = w.handed;
    *m = maps_of(w);
}

// Keeps the connection of a number.
#[tactic(auto, using(crate::proofs::Kept::conn_kept, crate::proofs::Kept::conn_far),
// Its ledger's words, and its own.
unfolding(crate::specs::Changes::ledger_numbers, crate::specs::Changes::conn_numbers))]
pub fn store_conn(n: &mut [u32; 15], conn: u32, k: Conn)
    ensures { (n.new ≡ conn_numbers conn k n.old)
        × ((m : List ℕ) → session_of n.new m ≡ after_conn (session_of n.old m) conn k) }
{
    if conn < CONNECTIONS {
        n[conn_place(conn)] = open_word(k);
        store_ledger(n, conn, k.ledger);
    }
}

// Keeps the ledger of a connection.
#[tactic(auto, using(crate::proofs::Kept::ledger_kept, crate::proofs::Kept::conn_far), unfolding(crate::specs::Changes::ledger_numbers))]
pub fn store_ledger(n: &mut [u32; 15], conn: u32, l: Ledger)
    ensures { (n.new ≡ ledger_numbers conn l n.old)
        × ((m : List ℕ) → session_of n.new m ≡ after_ledger (session_of n.old m) conn l) }
{
    if conn < CONNECTIONS {
        let at = conn_place(conn);
        n[at + 1] = l.next;
        n[at + 2] = l.held;
    }
}

// Closes a connection, or all of them.
#[tactic(auto, using(crate::proofs::Kept::own_closed, crate::proofs::Kept::none_closed), unfolding(crate::specs::Changes::shut_numbers))]
pub fn close(n: &mut [u32; 15], conn: u32, k: Closes)
    ensures { (n.new ≡ shut_numbers k conn n.old)
        × ((m : List ℕ) → session_of n.new m ≡ after_conns (session_of n.old m) (closing k conn (session_of n.old m).conns)) }
{
    match k {
        Closes::Session => {
            for c in 0..CONNECTIONS {
                n[conn_place(c)] = 0;
            }
        }
        Closes::Connection => {
            if conn < CONNECTIONS {
                n[conn_place(conn)] = 0;
            }
        }
    }
}
