// A login: what it keeps from request to request, and what a request is answered.
ghost use Rattle.login_types.specs.Agree.{IsFresh};

use key_table::parameters::Settled;
use refusal::Refusal;

// Its flags stand beside the values that they are about, as in C's words: `login_of` and `words_of` of login_words name each, and a refusal leaves
// the very struct (`Stays`), also the values that say nothing yet.
#[derive(Clone, Copy)]
pub struct State {
    // Refused, or in full feature phase.
    pub over: bool,
    // A request was not refused: ISID, TSIH and CID are those of the first such request, the stage is that after the last one.
    pub begun: bool,
    // A block was judged.
    pub judged: bool,
    // 0 security, 1 operational, 3 full feature. A number and no enum: `load` and `store` of login_words give back whatever 8 bits C's words
    // have here, and a request's CSG and NSG are whatever two bits it has.
    pub stage: u8,
    pub isid: u64,
    pub tsih: u16,
    pub cid: u16,
    // How many bytes of the gather area count. The length stands alone, for C lends the area apart, request by request.
    pub gathered: u16,
    pub settled: Settled,
}

// What a request that is not refused is answered; its text is the first `length` bytes of the text output. T and NSG stand apart, and
// stages are numbers, as the header and `login_answer_words` have them.
#[derive(Clone, Copy)]
pub struct Accepted {
    // After this request.
    pub stage: u8,
    pub transit: bool,
    pub csg: u8,
    pub nsg: u8,
    pub tsih: u16,
    pub length: usize,
}

// The login after a request, and the answer.
#[derive(Clone, Copy)]
pub struct Step {
    pub state: State,
    pub answer: Result<Accepted, Refusal>,
}

impl State {
    // A login before its first request: no key is settled, every standard value is in force.
    pub fn fresh() -> Self
        ensures { IsFresh result }
    {
        Self {
            over: false,
            begun: false,
            judged: false,
            stage: 0,
            isid: 0,
            tsih: 0,
            cid: 0,
            gathered: 0,
            settled: Settled::fresh(),
        }
    }
}
