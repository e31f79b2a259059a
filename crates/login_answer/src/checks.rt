// The checks of a Login request, in their order.
ghost use Rattle.std.specs.Prelude.{◌≡◌, ◌<◌, ◌^◌};
ghost use Rattle.login_book.specs.Book.{in_stage, permitted, begun};
ghost use Rattle.login_book.specs.Login.{differs, status_of};
ghost use Rattle.login_answer.specs.Promises.{Checked};
ghost use Rattle.login_types.specs.Agree.{book_of};

use login_types::state::State;
use request_header::Login;

// The longest text that is gathered.
pub const MAX_TEXT: usize = 8192;

// The permitted steps from a stage: 0 to 1 or 3, and 1 to 3.
const STEPS: [(u8, u8); 3] = [(0, 1), (0, 3), (1, 3)];

#[tactic(auto, unfolding(login_book::specs::Book::permitted))]
fn step_permitted(from: u8, to: u8) -> bool
    ensures { result ≡ permitted (in_stage from) to }
{
    STEPS.contains(&(from, to))
}

// ISID, TSIH or CID differ from those of the first request.
fn is_other(l: State, q: Login) -> bool
    ensures { result ≡ differs (begun l.stage l.isid l.tsih l.cid) q }
{
    (q.isid != l.isid) | (q.tsih != l.tsih) | (q.cid != l.cid)
}

// The status of the first broken rule, if one is broken; n is the length of the request's data.
#[tactic(auto, using(crate::proofs::Broken::checks))]
pub fn status_of(l: State, q: Login, n: usize, live: u16) -> Result<(), u16>
    requires { n < 2 ^ 63 }
    ensures { Checked (status_of (book_of l) q n live) result }
{
    if 0 < q.version_min {
        return Err(0x0205);
    }
    if (q.tsih != 0) & (q.tsih != live) {
        return Err(0x020a);
    }
    let broken = (l.begun & is_other(l, q))
        | (q.continues & q.transit)
        | (l.begun & (q.csg != l.stage))
        | (!l.begun & !((q.csg == 0) | (q.csg == 1)))
        | (q.transit & !step_permitted(q.csg, q.nsg))
        | (MAX_TEXT < l.gathered as usize + n);
    if broken {
        return Err(0x0200);
    }
    Ok(())
}
