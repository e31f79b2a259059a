// What a response that is sent has of its task's record: the ExpDataSN that a SCSI Response is written with, and whether it is the one that is due.
#![tactic(auto)]

ghost use Rattle.std.specs.Prelude.{◌≡◌};
ghost use Rattle.task_book.specs.Record.{Record};
ghost use Rattle.book.specs.Book.{completed, is_due};

use response_header::{Response, ScsiResponse};
use task::exp_data_sn;
use task_book::Numbering;

// The response that is written: a SCSI Response has the ExpDataSN of its task, by the numbering, and every other is as it was given.
pub fn completed(r: Response, n: Numbering) -> Response
    ensures { (y : Record) → y.numbering ≡ n → result ≡ completed y r }
{
    match r {
        Response::ScsiResponse(x) => Response::ScsiResponse(ScsiResponse {
            exp_data_sn: exp_data_sn(n, x.response),
            ..x
        }),
        _ => r,
    }
}

// Whether a response is due: one of the six, and a SCSI Response where its ITT and its SNACK tag are the task's.
pub fn is_due(r: Response, initiator_task_tag: u32, snack_tag: u32) -> bool
    ensures { (y : Record) → y.given.initiator_task_tag ≡ initiator_task_tag → y.numbering.snack_tag ≡ snack_tag
        → result ≡ is_due y r }
{
    match r {
        Response::ScsiResponse(x) => {
            (x.initiator_task_tag == initiator_task_tag) & (x.snack_tag == snack_tag)
        }
        Response::DataIn(_) | Response::R2t(_) => false,
        _ => true,
    }
}
