// The answer on a judged block, and the login after it; or a login that a status ends.
ghost use Rattle.std.specs.Prelude.{◌≡◌};
ghost use Rattle.login_book.specs.Login.{handle};
ghost use Rattle.login_answer.specs.Promises.{end_step, accept_step, finish_step};

use key_table::parameters::Settled;
use login_block::block::Judged;
use login_types::state::{Accepted, State, Step};
use refusal::Refusal;
use request_header::Login;

// A status ends the login.
pub fn end(l: State, status: u16) -> Step
    ensures { result ≡ end_step l status }
{
    Step {
        state: State { over: true, ..l },
        answer: Err(Refusal::Login(status)),
    }
}

fn handle_of(q: Login, new: u16) -> u16
    ensures { result ≡ handle q new }
{
    if (q.tsih == 0) & q.transit & (q.nsg == 3) {
        new
    } else {
        q.tsih
    }
}

// The answer of n bytes to a request whose block is not refused.
fn accept(q: Login, new: u16, settled: Settled, n: usize) -> Step
    ensures { result ≡ accept_step q new settled n }
{
    let stage = if q.transit { q.nsg } else { q.csg };
    Step {
        state: State {
            over: q.transit & (q.nsg == 3),
            begun: true,
            judged: true,
            stage,
            isid: q.isid,
            tsih: q.tsih,
            cid: q.cid,
            gathered: 0,
            settled,
        },
        answer: Ok(Accepted {
            stage,
            transit: q.transit,
            csg: q.csg,
            nsg: if q.transit { q.nsg } else { 0 },
            tsih: handle_of(q, new),
            length: n,
        }),
    }
}

// The login after a judged block, and the answer.
pub fn finish(l: State, q: Login, new: u16, j: Judged) -> Step
    ensures { result ≡ finish_step l q new j.settled j.verdict }
{
    match j.verdict {
        Err(status) => end(l, status),
        Ok(n) => accept(q, new, j.settled, n),
    }
}
