// The twelve refusals, each with its answer number.
#![tactic(auto)]

ghost use Rattle.std.specs.Prelude.{◌≡◌, Some};
ghost use Rattle.refusal.specs.Refusal.{number, status, written_out};

use std::fmt;

#[derive(Clone, Copy, Debug, PartialEq, Eq)]
pub enum Refusal {
    // A lent output is too short.
    Buffer,
    // The opcode names no request that is read here.
    Opcode,
    // A field rule is broken.
    Field,
    // The input isn't exactly the PDU that its header states.
    Length,
    // The data segment is longer than the limit.
    TooLong,
    // A rule of the login phase refuses, with this Status-Class and Status-Detail: the RFC's number and no enum, for the rules name
    // statuses so (`keys/specs/Judge`, `login_book/specs/Login`), and C's answer has it.
    Login(u16),
    // There is no connection of this number.
    NoConn,
    // The connection isn't open, or the login is over.
    Closed,
    // The connection is open already.
    Open,
    // The ledger has no room for another status.
    Full,
    // The ExpStatSN is outside the ledger.
    Stale,
    // The run or number isn't wholly held, or SNACK isn't served.
    Snack,
}

// The answer number of a refusal. A match: a refused login carries its status, so the enum can't be cast.
pub fn number_of(refusal: Refusal) -> u8
    ensures { result ≡ number refusal }
{
    match refusal {
        Refusal::Buffer => 1,
        Refusal::Opcode => 2,
        Refusal::Field => 3,
        Refusal::Length => 4,
        Refusal::TooLong => 5,
        Refusal::Login(_) => 6,
        Refusal::NoConn => 7,
        Refusal::Closed => 8,
        Refusal::Open => 9,
        Refusal::Full => 10,
        Refusal::Stale => 11,
        Refusal::Snack => 12,
    }
}

// The status that comes with a refused login; no other refusal has one, and 0 stands there, as `status` and C's answer have it.
pub fn status_of(refusal: Refusal) -> u16
    ensures { result ≡ status refusal }
{
    match refusal {
        Refusal::Login(s) => s,
        _ => 0,
    }
}

impl fmt::Display for Refusal {
    ghost output = { λ refusal. Some (written_out refusal) };

    fn fmt<W: fmt::Write>(&self, f: &mut fmt::Formatter<W>) -> fmt::Result {
        write!(f, "refused {}", number_of(*self))
    }
}
