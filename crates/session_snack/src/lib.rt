// What a SNACK asks for again: the run of held statuses that a PDU on a connection names. The call has no requirement of its caller, and
// changes nothing.
#![tactic(auto)]

ghost use Rattle.std.specs.Prelude.{◌≡◌};
ghost use Rattle.request_header.specs.declared.Request.TheVariants as Request;
ghost use Rattle.request_header.specs.Request.{read_pdu, snack_of};
ghost use Rattle.window.specs.Agree.{Commands};
ghost use Rattle.ledger.specs.Agree.{Statuses};
ghost use Rattle.book.specs.Book.{Call, no_outputs, asked_by, asked};
ghost use Rattle.session_state.specs.Agree.{Did, state};
ghost use Rattle.session_snack.specs.Answer.{asked_of, snack_answer};

use field::{HEADER_BYTES, be32};
use ledger::Run;
use ledger_held::run_of;
use refusal::Refusal;
use request_header::Limits;
use request_verdict::snack_header;
use session_state::{Session, limits_of, reach};

// What a SNACK that asks for statuses asks for, its BegRun and RunLength: SNACK for another type or at level 0. Only these fields are read: with all of
// them a SNACK took a tenth more instructions.
fn run_in(level: u32, header: &[u8; HEADER_BYTES]) -> Result<(u32, u32), Refusal>
    ensures { asked_of result ≡ asked_by level (Request.Snack (snack_of header.now)) }
{
    if (header[1] % 16 == 1) & (level != 0) {
        Ok((be32(header, 40), be32(header, 44)))
    } else {
        Err(Refusal::Snack)
    }
}

// Reads the PDU of a SNACK call: reading's refusals, FIELD for another kind.
fn read_snack(level: u32, pdu: &[u8], limits: Limits) -> Result<(u32, u32), Refusal>
    ensures { asked_of result ≡ asked level (read_pdu limits pdu.now) }
{
    let header = snack_header(pdu, limits)?;
    run_in(level, header)
}

// The run that a SNACK PDU on a connection asks for. NOCONN, CLOSED, reading's refusals, FIELD for another kind, SNACK.
pub fn snack(s: Session, conn: u32, pdu: &[u8]) -> Result<Run, Refusal>
    ensures { (k : Commands) (ss : Statuses) → Did (Call.snack conn pdu.now) (state s k ss) (snack_answer result) no_outputs (state s k ss) }
{
    let l = reach(s, conn)?;
    let (beg_run, run_length) = read_snack(s.level, pdu, limits_of(s, conn))?;
    // Made of its two numbers: passed on whole, the run would go through memory (as a ledger in `session_state::reach`).
    let Some(Run { first, count }) = run_of(l, beg_run, run_length) else {
        return Err(Refusal::Snack);
    };
    Ok(Run { first, count })
}
