// The session's calls for C. A session is its numbers and maps, and the arrays of headers and tickets; each call is lent what it
// touches. An answer of one value at most goes back in a register, another in four words. A contract stands here as in the crate below, so that
// what C links is read with its contract at the export.
ghost use Rattle.std.specs.Prelude.{List, ℕ};
ghost use Rattle.window.specs.Agree.{Commands, commands};
ghost use Rattle.ledger.specs.Agree.{Statuses, statuses_in};
ghost use Rattle.book.specs.Book.{Call, outputs, no_outputs};
ghost use Rattle.answer_words.specs.Answer.{packed};
ghost use Rattle.response_words.specs.ResponseWords.{response_of};
ghost use Rattle.task_words.specs.TaskWords.{task_words, record_in};
ghost use Rattle.call_words.specs.Given.{opening_of, given_of};
ghost use Rattle.call_words.specs.Session.{session_words, FreshWords, Said, sends, SaidBy};

// Offers a whole PDU with its ticket on a connection.
#[unsafe(no_mangle)]
pub extern "C" fn drawbevel_core_offer(
    n: &mut [u32; 15],
    m: &mut [u64; 6],
    headers: &mut [u8; 3072],
    tickets: &mut [u32; 64],
    conn: u32,
    ticket: u32,
    pdu: &[u8],
) -> u64
    ensures { (ss : Statuses)
        → Said (Call.offer conn ticket pdu.now)
        (session_words n.old m.old (commands headers.old tickets.old) ss)
        (packed result) no_outputs
        (session_words n.new m.new (commands headers.new tickets.new) ss) }
{
    command_words::offer(n, m, headers, tickets, conn, ticket, pdu)
}

// Takes the next command, its header into the first 48 bytes of out.
#[unsafe(no_mangle)]
pub extern "C" fn drawbevel_core_take(
    n: &mut [u32; 15],
    m: &mut [u64; 6],
    headers: &[u8; 3072],
    tickets: &[u32; 64],
    out: &mut [u8],
    answer: &mut [u32; 4],
)
    ensures { (ss : Statuses)
        → Said (Call.take (outputs out.old))
        (session_words n.old m.old (commands headers.now tickets.now) ss)
        answer.new (outputs out.new)
        (session_words n.new m.new (commands headers.now tickets.now) ss) }
{
    command_words::take(n, m, headers, tickets, out, answer);
}

// Opens a connection that isn't open, with its first StatSN.
#[unsafe(no_mangle)]
pub extern "C" fn drawbevel_core_open(
    n: &mut [u32; 15],
    m: &mut [u64; 6],
    conn: u32,
    stat_sn: u32,
) -> u64
    ensures { (k : Commands) (ss : Statuses)
        → Said (Call.opening conn (opening_of stat_sn))
        (session_words n.old m.old k ss)
        (packed result) no_outputs
        (session_words n.new m.new k ss) }
{
    connection_words::open(n, m, conn, stat_sn)
}

// The effect of a logout on an open connection.
#[unsafe(no_mangle)]
pub extern "C" fn drawbevel_core_logout(
    n: &mut [u32; 15],
    m: &mut [u64; 6],
    conn: u32,
    reason: u8,
    answer: &mut [u32; 4],
)
    ensures { (k : Commands) (ss : Statuses)
        → Said (Call.logout conn reason)
        (session_words n.old m.old k ss)
        answer.new no_outputs
        (session_words n.new m.new k ss) }
{
    connection_words::logout(n, m, conn, reason, answer);
}

// Releases the statuses before an ExpStatSN.
#[unsafe(no_mangle)]
pub extern "C" fn drawbevel_core_acknowledge(
    n: &mut [u32; 15],
    m: &mut [u64; 6],
    conn: u32,
    exp_stat_sn: u32,
) -> u64
    ensures { (k : Commands) (ss : Statuses)
        → Said (Call.acknowledge conn exp_stat_sn)
        (session_words n.old m.old k ss)
        (packed result) no_outputs
        (session_words n.new m.new k ss) }
{
    status_words::acknowledge(n, m, conn, exp_stat_sn)
}

// The run that a status SNACK asks for.
#[unsafe(no_mangle)]
pub extern "C" fn drawbevel_core_snack(
    n: &[u32; 15],
    m: &[u64; 6],
    conn: u32,
    pdu: &[u8],
    answer: &mut [u32; 4],
)
    ensures { (k : Commands) (ss : Statuses)
        → Said (Call.snack conn pdu.now)
        (session_words n.now m.now k ss)
        answer.new no_outputs
        (session_words n.now m.now k ss) }
{
    status_words::snack(n, m, conn, pdu, answer);
}

// Sends a held status again, its header with the current window numbers, and of a SCSI Response what it takes of the record, into the first 48
// bytes of out.
#[unsafe(no_mangle)]
pub extern "C" fn drawbevel_core_resend(
    n: &[u32; 15],
    m: &[u64; 6],
    statuses: &[u8; 6144],
    status_tickets: &[u32; 128],
    task: &[u32; 12],
    wide: &[u64; 4],
    conn: u32,
    stat_sn: u32,
    out: &mut [u8],
) -> u64
    ensures { (k : Commands) (tags ends : List ℕ)
        → Said (Call.resend conn stat_sn (record_in (task_words task.now wide.now tags ends)) (outputs out.old))
        (session_words n.now m.now k (statuses_in statuses.now status_tickets.now))
        (packed result) (outputs out.new)
        (session_words n.now m.now k (statuses_in statuses.now status_tickets.now)) }
{
    status_words::resend(
        n,
        m,
        statuses,
        status_tickets,
        task,
        wide,
        conn,
        stat_sn,
        out,
    )
}

// Sends a response, its header into the first 48 bytes of out.
#[unsafe(no_mangle)]
pub extern "C" fn drawbevel_core_send(
    n: &mut [u32; 15],
    m: &mut [u64; 6],
    statuses: &mut [u8; 6144],
    status_tickets: &mut [u32; 128],
    task: &[u32; 12],
    wide: &[u64; 4],
    conn: u32,
    ticket: u32,
    words: &[u64; 10],
    out: &mut [u8],
) -> u64
    ensures { (k : Commands) (tags ends : List ℕ)
        → SaidBy (sends (response_of words.now) conn ticket (record_in (task_words task.now wide.now tags ends)) (outputs out.old))
        (session_words n.old m.old k (statuses_in statuses.old status_tickets.old))
        (packed result) (outputs out.new)
        (session_words n.new m.new k (statuses_in statuses.new status_tickets.new)) }
{
    send_words::send(
        n,
        m,
        statuses,
        status_tickets,
        task,
        wide,
        conn,
        ticket,
        words,
        out,
    )
}

// A fresh session: its first command number, connection 0's first StatSN, the ErrorRecoveryLevel.
#[unsafe(no_mangle)]
pub extern "C" fn drawbevel_core_fresh(
    n: &mut [u32; 15],
    m: &mut [u64; 6],
    headers: &mut [u8; 3072],
    tickets: &mut [u32; 64],
    statuses: &mut [u8; 6144],
    status_tickets: &mut [u32; 128],
    first: u32,
    stat_sn: u32,
    level: u8,
)
    ensures { FreshWords (given_of first stat_sn level)
        (session_words n.new m.new (commands headers.new tickets.new)
        (statuses_in statuses.new status_tickets.new)) }
{
    fresh_words::fresh(
        n,
        m,
        headers,
        tickets,
        statuses,
        status_tickets,
        first,
        stat_sn,
        level,
    );
}
