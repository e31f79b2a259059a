// What may be asked of a session, and changes nothing: the window's two numbers, the next StatSN of a connection, who holds a number; and
// how long a PDU is, by its first bytes.
#![tactic(auto)]

ghost use Rattle.std.specs.Prelude.{◌≡◌, ℕ, List};
ghost use Rattle.request_header.specs.Request.{length_answer_of};
ghost use Rattle.window.specs.Book.{Book, holder_of};
ghost use Rattle.window.specs.Agree as WA;
ghost use Rattle.window.specs.Agree.{Commands, commands};
ghost use Rattle.ledger.specs.Agree.{Statuses};
ghost use Rattle.book.specs.Book.{Call, Question, Answer, Reply, length_reply, no_outputs};
ghost use Rattle.session_state.specs.Agree.{State, state, Did};
ghost use Rattle.session_questions.specs.Answer.{next_answer, holder_answer};

use place_map::bit;
use refusal::Refusal;
use request_header::LIMITS;
use session_state::{Session, reach};
use window::{PLACES, WINDOW_SLOTS, Window};

#[derive(Clone, Copy)]
pub struct WindowNumbers {
    pub exp_cmd_sn: u32,
    pub max_cmd_sn: u32,
}

// Who holds a number. Three answers, none of them a refusal: as an Option it would hold a second enum, void or command, to be matched again.
#[derive(Clone, Copy)]
pub enum HolderAnswer {
    Free,
    Void,
    By { ticket: u32, origin: Option<u32> },
}

// ExpCmdSN and MaxCmdSN.
#[tactic(auto, unfolding(book::specs::Book::book_step, book::specs::Book::reply_to))]
pub fn window_numbers(s: Session) -> WindowNumbers
    ensures { (k : Commands) (ss : Statuses)
        → Did (Call.ask Question.window_numbers) (state s k ss)
        (Answer.told (Reply.numbers result.exp_cmd_sn result.max_cmd_sn)) no_outputs (state s k ss) }
{
    let w = s.window;
    WindowNumbers {
        exp_cmd_sn: window::exp_cmd_sn(w),
        max_cmd_sn: window::max_cmd_sn(w),
    }
}

// The next StatSN of a connection. NOCONN, CLOSED.
#[tactic(auto,
// The book's step.
unfolding(book::specs::Book::book_step, book::specs::Book::reply_to, book::specs::Book::next_of,
// A connection, in the book and in the code.
book::specs::Book::conn_of, session_state::specs::Agree::ConnAgrees, session_state::specs::After::conn_at))]
pub fn next_stat_sn(s: Session, conn: u32) -> Result<u32, Refusal>
    ensures { (k : Commands) (ss : Statuses)
        → Did (Call.ask (Question.next_stat_sn conn)) (state s k ss) (next_answer result) no_outputs (state s k ss) }
{
    let l = reach(s, conn)?;
    Ok(l.next)
}

// Who holds a number of the window.
#[tactic(auto,
// The book's step.
unfolding(window::specs::Book::holder_of, window::specs::Book::distance, window::specs::Book::holder_at,
// A place, by its bits and its command.
window::specs::Agree::Maps, window::specs::Agree::held_bit, window::specs::Agree::void_bit, window::specs::Agree::SlotHas,
// Its origin, and its slot.
window::specs::Agree::OriginAt, window::specs::PlaceSlot::slot_of))]
fn holder_in(w: Window, tickets: &[u32; WINDOW_SLOTS], number: u32) -> HolderAnswer
    ensures { (h : List ℕ) (b : Book) → WA.Agrees (WA.state w (commands h tickets.now)) b
        → holder_answer result ≡ holder_of b number }
{
    let d = number.wrapping_sub(w.next);
    if PLACES <= d {
        return HolderAnswer::Free;
    }
    if bit(w.held, d) == 0 {
        return HolderAnswer::Free;
    }
    if bit(w.voided, d) == 1 {
        return HolderAnswer::Void;
    }
    // A place's slot is that of its number.
    let ticket = tickets[(number as usize) % WINDOW_SLOTS];
    let origin = window::origin_at(w, d);
    HolderAnswer::By { ticket, origin }
}

// Who holds a number: nobody, a void command, or a command with its ticket and the origin that it still has.
#[tactic(auto, unfolding(book::specs::Book::book_step, book::specs::Book::reply_to))]
pub fn holder(s: Session, tickets: &[u32; WINDOW_SLOTS], number: u32) -> HolderAnswer
    ensures { (h : List ℕ) (ss : Statuses)
        → Did (Call.ask (Question.holder number)) (state s (commands h tickets.now) ss)
        (Answer.told (Reply.holding (holder_answer result))) no_outputs (state s (commands h tickets.now) ss) }
{
    holder_in(s.window, tickets, number)
}

// The whole length of the PDU that begins with these bytes. LENGTH under 48 of them, OPCODE, TOOLONG.
#[tactic(auto, unfolding(book::specs::Book::book_step, book::specs::Book::reply_to))]
pub fn whole_length(bytes: &[u8]) -> Result<u32, Refusal>
    ensures { (t : State)
        → Did (Call.ask (Question.whole_length bytes.now)) t (length_reply (length_answer_of result)) no_outputs t }
{
    request_length::whole_length(bytes, LIMITS)
}
