// A session's answers as four words, and as one number where there is one value at most: the numbers of all, what they share, and the data calls'.
#![tactic(auto)]

ghost use Rattle.std.specs.Prelude.{◌≡◌, [], ◌∷◌};
ghost use Rattle.book.specs.Book.{Answer};
ghost use Rattle.refusal.specs.Refusal.{number};
ghost use Rattle.window.specs.Agree.{origin_of};
ghost use Rattle.task_book.specs.Steps as T;
ghost use Rattle.answer_words.specs.Answer.{origin_word, moved_words, answer_words, value_words, packed};

use refusal::Refusal;

// The numbers of the answers are `drawbevel.h`'s. OK: a header was read or written, or its length told.
pub const OK: u32 = 0;

pub const DONE: u32 = 32;

pub const KEPT: u32 = 33;

pub const DUPLICATE: u32 = 34;

pub const PASSED: u32 = 35;

pub const BEYOND: u32 = 36;

pub const IMMEDIATE: u32 = 37;

pub const NOTHING: u32 = 38;

pub const VOID: u32 = 39;

pub const COMMAND: u32 = 40;

pub const FREE: u32 = 41;

pub const HELD: u32 = 42;

const RUN: u32 = 43;

const ACKNOWLEDGED: u32 = 44;

pub fn refused(f: Refusal) -> [u32; 4]
    ensures { result ≡ answer_words (Answer.refused (number f)) }
{
    refused_by(refusal::number_of(f) as u32)
}

// A refusal by its number.
pub fn refused_by(number: u32) -> [u32; 4]
    ensures { result ≡ answer_words (Answer.refused number) }
{
    [number, 0, 0, 0]
}

// An answer of one value at most, which goes back in a register. Not by `field::pair`, whose first half is the higher one.
pub fn pack(answer: u32, value: u32) -> u64
    ensures { packed result ≡ answer ∷ value ∷ 0 ∷ 0 ∷ [] }
{
    answer as u64 + value as u64 * 0x1_0000_0000
}

pub fn pack_refused(f: Refusal) -> u64
    ensures { packed result ≡ answer_words (Answer.refused (number f)) }
{
    pack(refusal::number_of(f) as u32, 0)
}

// The value that a call answers with, under the answer's number; or its refusal.
pub fn pack_value(answer: u32, value: Result<u32, Refusal>) -> u64
    ensures { packed result ≡ value_words answer value }
{
    match value {
        Ok(n) => pack(answer, n),
        Err(f) => pack_refused(f),
    }
}

// The connection that a command came on; 4, DRAWBEVEL_NO_ORIGIN, where it has none.
pub fn origin_word(o: Option<u32>) -> u32
    ensures { result ≡ origin_word (origin_of o) }
{
    o.unwrap_or(4)
}

// Data that came: its place, its count, and how many R2Ts are open after it.
pub fn came(offset: u32, count: u32, open_count: u32) -> [u32; 4]
    ensures { result ≡ moved_words (T.came offset count open_count) }
{
    [DONE, offset, count, open_count]
}

// The run that a data SNACK asks for, or that is sent anew.
pub fn data_run(first: u32, count: u32) -> [u32; 4]
    ensures { result ≡ moved_words (T.run first count) }
{
    [RUN, first, count, 0]
}

// How many numbers a DataACK newly acknowledges.
pub fn data_acknowledged(count: u32) -> [u32; 4]
    ensures { result ≡ moved_words (T.acknowledged count) }
{
    [ACKNOWLEDGED, count, 0, 0]
}
