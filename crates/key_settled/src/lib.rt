// What a judged pair of a block leaves settled: which keys came, and the values in force.
#![tactic(auto)]

ghost use Rattle.std.specs.Prelude.{◌≡◌};
ghost use Rattle.key_table.specs.Table.{place_of_found};
ghost use Rattle.keys.specs.Promises.{settled_of, after};

use key_table::table::Key;
use key_values::value::Judgement;

// What a judged pair leaves, unless a status refuses it: its key came, and its value is in force. In place, for it is done for each pair.
// A Result, for `after` says what a refused pair leaves too; no Settled, for the values may be of any length, where its twelve would ask
// more of a caller.
#[tactic(auto, unfolding(keys::specs::Promises::after))]
pub fn settle_pair(
    seen: &mut [bool; 28],
    values: &mut [u32],
    k: Option<Key>,
    j: Result<Judgement, u16>,
)
    ensures { settled_of seen.new values.new ≡ after (settled_of seen.old values.old) (place_of_found k) j }
{
    let (Some(k), Ok(j)) = (k, j) else {
        return;
    };
    let k = k as usize;
    seen[k] = true;
    if let Judgement::Settles(n, _) = j {
        if k < values.len() {
            values[k] = n;
        }
    }
}
