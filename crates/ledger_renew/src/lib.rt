// What a resend renews of a status for its task: a SCSI Response's ExpDataSN and SNACK tag.
#![tactic(auto)]

ghost use Rattle.std.specs.Prelude.{◌≡◌, ◌≤◌, length};
ghost use Rattle.store.specs.Slot.{header_size};
ghost use Rattle.ledger.specs.Book.{with_tag, renewed_for};

use task::exp_data_sn;
use task_book::Numbering;

// The opcode of a SCSI Response, and where it has its SNACK tag and its ExpDataSN.
const SCSI_RESPONSE: u8 = 0x21;

const SNACK_TAG: usize = 20;

const EXP_DATA_SN: usize = 36;

// Puts the tag of a SNACK of type 3 into a SCSI Response; where none came, its own stays.
#[tactic(auto, unfolding(ledger::specs::Book::with_tag))]
fn put_tag(out: &mut [u8], tag: u32)
    requires { header_size ≤ length out.old }
    ensures { out.new ≡ with_tag out.old tag }
{
    if tag != 0 {
        field::put_four(out, SNACK_TAG, tag);
    }
}

// Renews what a SCSI Response has of its task; another status has nothing of one. Out is a slice: see `store::put`.
#[tactic(auto, unfolding(ledger::specs::Book::renewed_for))]
pub fn renew_for(n: Numbering, out: &mut [u8])
    requires { header_size ≤ length out.old }
    ensures { out.new ≡ renewed_for n out.old }
{
    if out[0] != SCSI_RESPONSE {
        return;
    }
    let count = exp_data_sn(n, out[2]);
    put_tag(out, n.snack_tag);
    field::put_four(out, EXP_DATA_SN, count);
}
