// Whether a response can be written.
ghost use Rattle.std.specs.Prelude.{◌≡◌};
ghost use Rattle.response_header.specs.Response.{data_length_in, fields_fit, is_too_long, refusal_in, judgement_number};

use crate::Response;
use field::HEADER_BYTES;
use refusal::Refusal;

// The data length that a response states.
fn data_length_in(r: Response) -> u32
    ensures { result ≡ data_length_in r }
{
    match r {
        Response::NopIn(x) => x.data_segment_length,
        Response::ScsiResponse(x) => x.data_segment_length,
        Response::LoginResponse(x) => x.data_segment_length,
        Response::DataIn(x) => x.data_segment_length,
        Response::Reject(_) => HEADER_BYTES as u32,
        // The others have no data.
        _ => 0,
    }
}

// Whether O and U are not both set, each value fits its place, and an NSG comes with T.
fn fields_fit(r: Response) -> bool
    ensures { result ≡ fields_fit r }
{
    match r {
        Response::ScsiResponse(x) => !(x.overflow & x.underflow),
        Response::LoginResponse(x) => {
            (x.csg < 4) & (x.nsg < 4) & (x.isid < 0x1_0000_0000_0000) & (x.transit | (x.nsg == 0))
        }
        _ => true,
    }
}

// Whether a data length is TOOLONG: above max_data, or of 2^24 or more, for which a header has no room.
pub fn too_long(data_length: u64, max_data: u32) -> bool
    ensures { result ≡ is_too_long max_data data_length }
{
    (0xff_ffff < data_length) | ((max_data as u64) < data_length)
}

// Whether a response can be written: TOOLONG by its data length, then FIELD.
#[tactic(auto, unfolding(crate::specs::Response::refusal_in))]
pub fn judge(r: Response, max_data: u32) -> Result<(), Refusal>
    ensures { judgement_number result ≡ refusal_in max_data r }
{
    if too_long(data_length_in(r) as u64, max_data) {
        return Err(Refusal::TooLong);
    }
    if fields_fit(r) {
        Ok(())
    } else {
        Err(Refusal::Field)
    }
}
