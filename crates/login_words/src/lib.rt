// A login between requests as words, eight numbers, its settled values and which keys came; and the words of its answers.
#![tactic(auto)]

ghost use Rattle.std.specs.Prelude.{◌≡◌};
ghost use Rattle.login_words.specs.Login.{login_words, login_fits, login_of, words_of, login_answer_words, changes_nothing};

use key_table::parameters::{Parameters, Settled};
use login_types::state::{Accepted, State};
use refusal::{Refusal, number_of, status_of};
use words::{WIDE_8, WIDE_16, flag};

// Whether the numbers are those of a login: none is too wide for its field. One test of all and then casts, as in `response_words`.
fn numbers_fit(n: &[u64; 8]) -> bool
    ensures { result ≡ login_fits n.now }
{
    (((n[0] < 2) & (n[1] < 2)) & ((n[2] < 2) & (n[3] < WIDE_8)))
        & (((n[5] < WIDE_16) & (n[6] < WIDE_16)) & (n[7] < WIDE_16))
}

// The login that the numbers, values and keys are; numbers that are those of none stand for a login that is over. They travel apart, since
// they are three arrays of C's `drawbevel_login`.
#[tactic(auto, using(crate::proofs::Kept::fitting), unfolding(crate::specs::Login::login_of))]
pub fn load(n: &[u64; 8], values: &[u32; 12], seen: &[bool; 28]) -> State
    ensures { result ≡ login_of (login_words n.now values.now seen.now) }
{
    let settled = Settled {
        seen: *seen,
        parameters: Parameters { values: *values },
    };
    if numbers_fit(n) {
        return State {
            over: n[0] != 0,
            begun: n[1] != 0,
            judged: n[2] != 0,
            stage: n[3] as u8,
            isid: n[4],
            tsih: n[5] as u16,
            cid: n[6] as u16,
            gathered: n[7] as u16,
            settled,
        };
    }
    // Written out: `State::fresh` would make settled values only for these to take their place.
    State {
        over: true,
        begun: false,
        judged: false,
        stage: 0,
        isid: 0,
        tsih: 0,
        cid: 0,
        gathered: 0,
        settled,
    }
}

// Keeps the login in the numbers, values and keys.
pub fn store(n: &mut [u64; 8], values: &mut [u32; 12], seen: &mut [bool; 28], l: State)
    ensures { (login_words n.new values.new seen.new ≡ words_of l)
        × (login_of (login_words n.new values.new seen.new) ≡ l) }
{
    let in_force = l.settled.parameters.values;
    let came = l.settled.seen;
    *values = in_force;
    *seen = came;
    *n = [
        flag(l.over),
        flag(l.begun),
        flag(l.judged),
        l.stage as u64,
        l.isid,
        l.tsih as u64,
        l.cid as u64,
        l.gathered as u64,
    ];
}

// The answer in words: the refusal's number or 0, its status, the stage, T, CSG, NSG and TSIH, and the length of the text.
pub fn answer_in_words(a: Result<Accepted, Refusal>) -> [u64; 8]
    ensures { result ≡ login_answer_words a }
{
    match a {
        Err(f) => [number_of(f) as u64, status_of(f) as u64, 0, 0, 0, 0, 0, 0],
        Ok(x) => [
            0,
            0,
            x.stage as u64,
            u64::from(x.transit),
            x.csg as u64,
            x.nsg as u64,
            x.tsih as u64,
            x.length as u64,
        ],
    }
}

// Whether an answer leaves the login: every refusal does but 6.
pub fn changes_nothing(a: Result<Accepted, Refusal>) -> bool
    ensures { result ≡ changes_nothing a }
{
    match a {
        Ok(_) | Err(Refusal::Login(_)) => false,
        Err(_) => true,
    }
}
