// What may be asked of a session, on words, which changes nothing, and of the first bytes of a PDU.
#![tactic(auto)]

ghost use Rattle.std.specs.Prelude.{List, ℕ};
ghost use Rattle.window.specs.Agree.{Commands, commands};
ghost use Rattle.ledger.specs.Agree.{Statuses};
ghost use Rattle.book.specs.Book.{Call, Question, no_outputs};
ghost use Rattle.answer_words.specs.Answer.{packed};
ghost use Rattle.call_words.specs.Session.{SessionWords, session_words, Said};

use session_words::load;
use window::WINDOW_SLOTS;

// ExpCmdSN and MaxCmdSN.
pub fn window(n: &[u32; 15], m: &[u64; 6], answer: &mut [u32; 4])
    ensures { (k : Commands) (ss : Statuses)
        → Said (Call.ask Question.window_numbers)
        (session_words n.now m.now k ss)
        answer.new no_outputs
        (session_words n.now m.now k ss) }
{
    let s = load(n, m);
    let a = session_questions::window_numbers(s);
    *answer = question_answer_words::numbers(a);
}

// The next StatSN of a connection.
pub fn next(n: &[u32; 15], m: &[u64; 6], conn: u32) -> u64
    ensures { (k : Commands) (ss : Statuses)
        → Said (Call.ask (Question.next_stat_sn conn))
        (session_words n.now m.now k ss)
        (packed result) no_outputs
        (session_words n.now m.now k ss) }
{
    let s = load(n, m);
    let a = session_questions::next_stat_sn(s, conn);
    question_answer_words::next(a)
}

// Who holds a number.
pub fn holder(
    n: &[u32; 15],
    m: &[u64; 6],
    tickets: &[u32; WINDOW_SLOTS],
    number: u32,
    answer: &mut [u32; 4],
)
    ensures { (h : List ℕ) (ss : Statuses)
        → Said (Call.ask (Question.holder number))
        (session_words n.now m.now (commands h tickets.now) ss)
        answer.new no_outputs
        (session_words n.now m.now (commands h tickets.now) ss) }
{
    let s = load(n, m);
    let a = session_questions::holder(s, tickets, number);
    *answer = question_answer_words::holder(a);
}

// The whole length of the PDU that begins with these bytes. It takes nothing of a session.
pub fn length(bytes: &[u8]) -> u64
    ensures { (s : SessionWords) → Said (Call.ask (Question.whole_length bytes.now)) s (packed result) no_outputs s }
{
    let a = session_questions::whole_length(bytes);
    question_answer_words::length(a)
}
