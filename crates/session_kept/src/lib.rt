// A session kept whole in its words. What a call changes of them is in `session_changes`.
#![tactic(auto)]

ghost use Rattle.std.specs.Prelude.{◌≡◌};
ghost use Rattle.session_words.specs.State.{session_of, window_maps, session_numbers};

use session_state::Session;
use session_words::{maps_of, open_word};

// Keeps the session in the numbers and the maps.
pub fn store(n: &mut [u32; 15], m: &mut [u64; 6], s: Session)
    ensures { (n.new ≡ session_numbers s) × (m.new ≡ window_maps s.window) × (session_of n.new m.new ≡ s) }
{
    let w = s.window;
    *m = maps_of(w);
    // Word by word, as `session_numbers` and the header have them: a loop would need the same list as its invariant.
    let [c0, c1, c2, c3] = s.conns;
    *n = [
        s.level,
        w.next,
        w.handed,
        open_word(c0),
        c0.ledger.next,
        c0.ledger.held,
        open_word(c1),
        c1.ledger.next,
        c1.ledger.held,
        open_word(c2),
        c2.ledger.next,
        c2.ledger.held,
        open_word(c3),
        c3.ledger.next,
        c3.ledger.held,
    ];
}
