// What C may ask of a session, which changes nothing, and of the first bytes of a PDU. Contracts: as in `calls`.
ghost use Rattle.std.specs.Prelude.{List, ℕ};
ghost use Rattle.window.specs.Agree.{Commands, commands};
ghost use Rattle.ledger.specs.Agree.{Statuses};
ghost use Rattle.book.specs.Book.{Call, Question, no_outputs};
ghost use Rattle.answer_words.specs.Answer.{packed};
ghost use Rattle.call_words.specs.Session.{SessionWords, session_words, Said};

// ExpCmdSN and MaxCmdSN.
#[unsafe(no_mangle)]
pub extern "C" fn drawbevel_core_window(n: &[u32; 15], m: &[u64; 6], answer: &mut [u32; 4])
    ensures { (k : Commands) (ss : Statuses)
        → Said (Call.ask Question.window_numbers)
        (session_words n.now m.now k ss)
        answer.new no_outputs
        (session_words n.now m.now k ss) }
{
    question_words::window(n, m, answer);
}

// The next StatSN of a connection.
#[unsafe(no_mangle)]
pub extern "C" fn drawbevel_core_next(n: &[u32; 15], m: &[u64; 6], conn: u32) -> u64
    ensures { (k : Commands) (ss : Statuses)
        → Said (Call.ask (Question.next_stat_sn conn))
        (session_words n.now m.now k ss)
        (packed result) no_outputs
        (session_words n.now m.now k ss) }
{
    question_words::next(n, m, conn)
}

// Who holds a number.
#[unsafe(no_mangle)]
pub extern "C" fn drawbevel_core_holder(
    n: &[u32; 15],
    m: &[u64; 6],
    tickets: &[u32; 64],
    number: u32,
    answer: &mut [u32; 4],
)
    ensures { (h : List ℕ) (ss : Statuses)
        → Said (Call.ask (Question.holder number))
        (session_words n.now m.now (commands h tickets.now) ss)
        answer.new no_outputs
        (session_words n.now m.now (commands h tickets.now) ss) }
{
    question_words::holder(n, m, tickets, number, answer);
}

// The whole length of the PDU that begins with these bytes. It takes nothing of a session.
#[unsafe(no_mangle)]
pub extern "C" fn drawbevel_core_length(bytes: &[u8]) -> u64
    ensures { (s : SessionWords) → Said (Call.ask (Question.whole_length bytes.now)) s (packed result) no_outputs s }
{
    question_words::length(bytes)
}
