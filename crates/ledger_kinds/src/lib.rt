// Which responses are statuses, which a ledger holds.
#![tactic(auto)]

ghost use Rattle.std.specs.Prelude.{◌≡◌};
ghost use Rattle.ledger.specs.Book.{is_status};

use field::NONE;
use response_header::Response;

// Whether a response is a status: all are but the NOP-In with ITT 0xffffffff, Data-In and R2T.
pub fn is_status(r: Response) -> bool
    ensures { result ≡ is_status r }
{
    match r {
        Response::NopIn(x) => x.initiator_task_tag != NONE,
        Response::DataIn(_) | Response::R2t(_) => false,
        _ => true,
    }
}
