// The answer to a piece of text that is gathered, and the login after it.
ghost use Rattle.std.specs.Prelude.{◌≡◌, ◌≤◌};
ghost use Rattle.login_answer.specs.Promises.{gathered_step};

use login_types::state::{Accepted, State, Step};
use request_header::Login;

// With C set n bytes are gathered now, and the answer is empty.
pub fn gathered_step(l: State, q: Login, n: usize) -> Step
    requires { n ≤ 8192 }
    ensures { result ≡ gathered_step l q n }
{
    Step {
        state: State {
            over: false,
            begun: true,
            stage: q.csg,
            isid: q.isid,
            tsih: q.tsih,
            cid: q.cid,
            gathered: n as u16,
            ..l
        },
        answer: Ok(Accepted {
            stage: q.csg,
            transit: false,
            csg: q.csg,
            nsg: 0,
            tsih: q.tsih,
            length: 0,
        }),
    }
}
