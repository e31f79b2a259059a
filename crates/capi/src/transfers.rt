// The calls that move data, for C, and the making of a task's record. A record is its numbers and the two arrays of its open R2Ts; the session
// stays as it is. Contracts: as in `calls`.
#![tactic(auto, using(crate::proofs::SaidOn::said_on))]

ghost use Rattle.std.specs.Prelude.{List, ℕ};
ghost use Rattle.window.specs.Agree.{Commands};
ghost use Rattle.ledger.specs.Agree.{Statuses};
ghost use Rattle.book.specs.Book.{Transfer, outputs, no_outputs};
ghost use Rattle.answer_words.specs.Answer.{packed};
ghost use Rattle.task_words.specs.TaskWords.{task_words};
ghost use Rattle.transfer_words.specs.Moves.{Makes, task_given_of};
ghost use Rattle.call_words.specs.Session.{session_words};
ghost use Rattle.capi.specs.Transfer.{SaidOn};

// Makes a task's record, with nothing open: the arrays of open R2Ts may hold anything.
#[unsafe(no_mangle)]
pub extern "C" fn drawbevel_core_task(
    task: &mut [u32; 12],
    wide: &mut [u64; 4],
    initiator_task_tag: u32,
    lun: u64,
    transfer_tag: u32,
    immediate: u32,
    max_burst_length: u32,
    max_outstanding_r2t: u16,
) -> u64
    ensures { (tags ends : List ℕ)
        → Makes (task_given_of initiator_task_tag lun transfer_tag max_burst_length max_outstanding_r2t) immediate
        (task_words task.old wide.old tags ends) (packed result) (task_words task.new wide.new tags ends) }
{
    transfer_words::make(
        task,
        wide,
        initiator_task_tag,
        lun,
        transfer_tag,
        immediate,
        max_burst_length,
        max_outstanding_r2t,
    )
}

// Sends a Data-In, its header into the first 48 bytes of out.
#[unsafe(no_mangle)]
pub extern "C" fn drawbevel_core_data_in(
    n: &[u32; 15],
    m: &[u64; 6],
    task: &mut [u32; 12],
    wide: &mut [u64; 4],
    conn: u32,
    is_final: bool,
    acknowledge: bool,
    length: u32,
    out: &mut [u8],
) -> u64
    ensures { (k : Commands) (ss : Statuses) (tags ends : List ℕ)
        → SaidOn conn (Transfer.data_in is_final acknowledge length (outputs out.old))
        (session_words n.now m.now k ss)
        (task_words task.old wide.old tags ends)
        (packed result) (outputs out.new)
        (task_words task.new wide.new tags ends) }
{
    transfer_words::data_in(n, m, task, wide, conn, is_final, acknowledge, length, out)
}

// Sends an R2T, its header into the first 48 bytes of out.
#[unsafe(no_mangle)]
pub extern "C" fn drawbevel_core_r2t(
    n: &[u32; 15],
    m: &[u64; 6],
    task: &mut [u32; 12],
    wide: &mut [u64; 4],
    tags: &mut [u32; 8],
    ends: &mut [u64; 8],
    conn: u32,
    tag: u32,
    length: u32,
    out: &mut [u8],
) -> u64
    ensures { (k : Commands) (ss : Statuses)
        → SaidOn conn (Transfer.r2t tag length (outputs out.old))
        (session_words n.now m.now k ss)
        (task_words task.old wide.old tags.old ends.old)
        (packed result) (outputs out.new)
        (task_words task.new wide.new tags.new ends.new) }
{
    transfer_words::r2t(n, m, task, wide, tags, ends, conn, tag, length, out)
}

// Takes a Data-Out that came.
#[unsafe(no_mangle)]
pub extern "C" fn drawbevel_core_data_out(
    n: &[u32; 15],
    m: &[u64; 6],
    conn: u32,
    pdu: &[u8],
    task: &mut [u32; 12],
    wide: &mut [u64; 4],
    tags: &[u32; 8],
    ends: &[u64; 8],
    answer: &mut [u32; 4],
)
    ensures { (k : Commands) (ss : Statuses)
        → SaidOn conn (Transfer.data_out pdu.now)
        (session_words n.now m.now k ss)
        (task_words task.old wide.old tags.now ends.now)
        answer.new no_outputs
        (task_words task.new wide.new tags.now ends.now) }
{
    data_out_words::data_out(n, m, conn, pdu, task, wide, tags, ends, answer);
}

// Takes a SNACK for data that came; the offset is used by type 3 alone.
#[unsafe(no_mangle)]
pub extern "C" fn drawbevel_core_data_snack(
    n: &[u32; 15],
    m: &[u64; 6],
    conn: u32,
    pdu: &[u8],
    task: &mut [u32; 12],
    wide: &mut [u64; 4],
    offset: u32,
    answer: &mut [u32; 4],
)
    ensures { (k : Commands) (ss : Statuses) (tags ends : List ℕ)
        → SaidOn conn (Transfer.data_snack offset pdu.now)
        (session_words n.now m.now k ss)
        (task_words task.old wide.old tags ends)
        answer.new no_outputs
        (task_words task.new wide.new tags ends) }
{
    data_snack_words::data_snack(n, m, conn, pdu, task, wide, offset, answer);
}
