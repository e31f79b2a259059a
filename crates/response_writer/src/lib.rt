// A response header written: made of its fields and the three numbers, and put into a lent buffer.
#![tactic(auto)]

ghost use Rattle.std.specs.Prelude.{◌≡◌, ◌+◌, ◌≤◌, length};
ghost use Rattle.std.proofs.Math.Seq.{paste};
ghost use Rattle.field.specs.Field.{pick};
ghost use Rattle.response_layout.specs.WholeNumbers.{own_bytes};
ghost use Rattle.response_writer.specs.Writing.{Outcome, answered, writing};

use field::{HEADER_BYTES, pair, put};
use refusal::Refusal;
use response_fields::own_fields;
use response_header::judge::judge;
use response_header::{Numbers, Response};
use response_layout::OwnFields;

// The StatSN that stands in a header: the next one, or 0 in Data-In, which has none. `response_layout::weight` is a byte's.
fn stat_sn_in(has_stat_sn: bool, stat_sn: u32) -> u32
    ensures { result ≡ pick has_stat_sn stat_sn 0 }
{
    if has_stat_sn { stat_sn } else { 0 }
}

// Writes the header into the 48 bytes from at on, in six stores.
pub fn place(out: &mut [u8], at: usize, o: OwnFields, n: Numbers)
    requires { at + 48 ≤ length out.old }
    ensures { out.new ≡ paste out.old at (own_bytes o n) 48 }
{
    let stat_sn = stat_sn_in(o.has_stat_sn, n.stat_sn);
    let numbers = pair(stat_sn, n.exp_cmd_sn);
    let last = pair(n.max_cmd_sn, o.at_36);
    put(out, at, o.at_0);
    put(out, at + 8, o.at_8);
    put(out, at + 16, o.at_16);
    put(out, at + 24, numbers);
    put(out, at + 32, last);
    put(out, at + 40, o.at_40);
}

// Writes the header into the first 48 bytes of out, or refuses: BUFFER, TOOLONG, FIELD.
#[tactic(auto, unfolding(crate::specs::Writing::writing))]
pub fn write(out: &mut [u8], r: Response, n: Numbers, max_data: u32) -> Result<(), Refusal>
    ensures { ◌≡◌ {A = Outcome} (record { answer = answered result; bytes = out.new }) (writing max_data out.old r n) }
{
    if out.len() < HEADER_BYTES {
        return Err(Refusal::Buffer);
    }
    judge(r, max_data)?;
    let o = own_fields(r);
    place(out, 0, o, n);
    Ok(())
}
