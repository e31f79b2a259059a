// What a data call changes of the words of a task's record: what is new is written, every other word stays.
#![tactic(auto)]

ghost use Rattle.std.specs.Prelude.{◌≡◌, set};
ghost use Rattle.words.specs.Words.{flag_word};
ghost use Rattle.task.specs.Agree.{with_data_in, with_r2t, with_data_out};
ghost use Rattle.task_words.specs.TaskWords.{task_of};

use task_book::{DataInSequence, DataOutSequence, Numbering};

// Keeps the numbering.
#[tactic(auto, using(words::proofs::Flags::as_word))]
fn store_numbering(n: &mut [u32; 12], x: Numbering)
    ensures { n.new ≡ set (set (set (set n.old 4 x.sent) 5 x.acknowledged) 6 (flag_word x.any_data_in)) 7 x.snack_tag }
{
    n[4] = x.sent;
    n[5] = x.acknowledged;
    n[6] = u32::from(x.any_data_in);
    n[7] = x.snack_tag;
}

// Keeps up to where data was asked for and came, and the next Data-Out's DataSN.
fn store_sequence(n: &mut [u32; 12], w: &mut [u64; 4], s: DataOutSequence)
    ensures { (n.new ≡ set n.old 9 s.data_sn) × (w.new ≡ set (set w.old 2 s.asked) 3 s.came) }
{
    n[9] = s.data_sn;
    w[2] = s.asked;
    w[3] = s.came;
}

// Keeps what a Data-In, a DataACK or a SNACK of type 3 changes of the record.
#[tactic(auto, using(crate::proofs::Kept::data_in_kept))]
pub fn store_data_in(
    n: &mut [u32; 12],
    w: &mut [u64; 4],
    numbering: Numbering,
    sequence: DataInSequence,
)
    ensures { task_of n.new w.new ≡ with_data_in (task_of n.old w.old) numbering sequence }
{
    store_numbering(n, numbering);
    n[8] = sequence.burst;
    w[1] = sequence.offset;
}

// Keeps what an R2T changes of the record.
#[tactic(auto, using(crate::proofs::Kept::r2t_kept))]
pub fn store_r2t(
    n: &mut [u32; 12],
    w: &mut [u64; 4],
    numbering: Numbering,
    sequence: DataOutSequence,
    opened: u32,
)
    ensures { task_of n.new w.new ≡ with_r2t (task_of n.old w.old) numbering sequence opened }
{
    store_numbering(n, numbering);
    store_sequence(n, w, sequence);
    n[11] = opened;
}

// Keeps what a Data-Out changes of the record.
#[tactic(auto, using(crate::proofs::Kept::data_out_kept))]
pub fn store_data_out(
    n: &mut [u32; 12],
    w: &mut [u64; 4],
    sequence: DataOutSequence,
    first_open: u32,
    open_count: u32,
)
    ensures { task_of n.new w.new ≡ with_data_out (task_of n.old w.old) sequence first_open open_count }
{
    store_sequence(n, w, sequence);
    n[10] = first_open;
    n[11] = open_count;
}
