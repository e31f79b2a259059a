// The code's record of a task, which the caller holds: a struct by value, and two arrays that the caller lends, in which the open R2Ts lie as
// in a ring. Here its making; `task_data_in` has its Data-In, `task_snack` the SNACKs for its data, `task_r2t` its R2Ts, `task_out` its
// Data-Out.
#![tactic(auto)]

ghost use Rattle.std.specs.Prelude.{◌≡◌, List, ℕ};
ghost use Rattle.refusal.specs.Refusal.{number};
ghost use Rattle.task_book.specs.Record.{making};
ghost use Rattle.task_book.specs.Steps.{exp_data_sn_of};
ghost use Rattle.task.specs.Agree.{making_of};

use refusal::{Refusal, number_of};
use response_header::{DataIn, R2t};
use task_book::{DataInSequence, DataOutSequence, Numbering, TaskGiven};

// The open R2Ts that a record holds at most, and so the length of its two arrays. Tags and ends travel apart, since they are two arrays of C's
// `drawbevel_task`: a struct of both would be made at each call only to be taken apart below.
pub const MOST_OPEN: u32 = 8;

pub const OPEN_PLACES: usize = MOST_OPEN as usize;

// The number that isn't given: fewer than 2^32 Data-In and R2T are sent for a task.
pub const LAST_NUMBER: u32 = 0xffff_ffff;

// Buffer offsets are below this.
pub const OFFSET_END: u64 = 0x1_0000_0000;

#[derive(Clone, Copy)]
pub struct Task {
    pub given: TaskGiven,
    pub numbering: Numbering,
    pub data_in: DataInSequence,
    pub data_out: DataOutSequence,
    // The place of the oldest open R2T in the arrays, modulo 8, and how many are open: the others follow it.
    pub first_open: u32,
    pub open_count: u32,
}

// The header that is written, and what is new of the record.
#[derive(Clone, Copy)]
pub struct DataInSent {
    pub header: DataIn,
    pub numbering: Numbering,
    pub sequence: DataInSequence,
}

#[derive(Clone, Copy)]
pub struct R2tSent {
    pub header: R2t,
    pub numbering: Numbering,
    pub sequence: DataOutSequence,
    pub open_count: u32,
}

// Where the data lies and how long it is, and what is new of the record.
#[derive(Clone, Copy)]
pub enum DataOutAnswer {
    // The refusal's number and not the enum, which goes through memory: with it a Data-Out took twice as long.
    Refused(u32),
    Came {
        offset: u32,
        count: u32,
        sequence: DataOutSequence,
        first_open: u32,
        open_count: u32,
    },
}

// The run that is asked for; how many numbers are newly acknowledged; the run that is sent anew; and what is new of the record.
#[derive(Clone, Copy)]
pub enum DataSnackAnswer {
    // As of a Data-Out; with the enum a data SNACK took 16.4 ns and not 10.3.
    Refused(u32),
    Run {
        first: u32,
        count: u32,
    },
    Acknowledged {
        count: u32,
        numbering: Numbering,
    },
    Restarted {
        first: u32,
        count: u32,
        numbering: Numbering,
        sequence: DataInSequence,
    },
}

impl From<Refusal> for DataOutAnswer {
    ghost use Rattle.task.specs.declared.DataOutAnswer.TheVariants as O;

    ghost from_gives = { λ f a. a ≡ O.Refused (number f) };

    fn from(f: Refusal) -> DataOutAnswer {
        DataOutAnswer::Refused(number_of(f) as u32)
    }
}

impl From<Refusal> for DataSnackAnswer {
    ghost use Rattle.task.specs.declared.DataSnackAnswer.TheVariants as S;

    ghost from_gives = { λ f a. a ≡ S.Refused (number f) };

    fn from(f: Refusal) -> DataSnackAnswer {
        DataSnackAnswer::Refused(number_of(f) as u32)
    }
}

// A fresh record, whatever the arrays hold: the immediate data is all that was asked for and came. FIELD where MaxOutstandingR2T is 0 or above 8.
#[tactic(auto,
// The rules.
unfolding(task_book::specs::Record::making, task_book::specs::Record::given_ok, task_book::specs::Record::fresh_record,
// The open R2Ts.
crate::specs::Agree::open_of))]
pub fn make(given: TaskGiven, immediate: u32) -> Result<Task, Refusal>
    ensures { (tags ends : List ℕ) → making_of tags ends result ≡ making given immediate }
{
    let most = given.max_outstanding_r2t;
    if (0 < most) & (most <= MOST_OPEN) {
        Ok(Task {
            given,
            numbering: Numbering {
                sent: 0,
                acknowledged: 0,
                any_data_in: false,
                snack_tag: 0,
            },
            data_in: DataInSequence {
                offset: 0,
                burst: 0,
            },
            data_out: DataOutSequence {
                asked: immediate as u64,
                came: immediate as u64,
                data_sn: 0,
            },
            first_open: 0,
            open_count: 0,
        })
    } else {
        Err(Refusal::Field)
    }
}

// ExpDataSN of a SCSI Response: the count of Data-In and R2T sent; 0 where the command wasn't completed at the target, or no Data-In was sent.
#[tactic(auto, unfolding(task_book::specs::Steps::exp_data_sn_of))]
pub fn exp_data_sn(n: Numbering, response: u8) -> u32
    ensures { result ≡ exp_data_sn_of n response }
{
    if (response == 0) & n.any_data_in {
        n.sent
    } else {
        0
    }
}
