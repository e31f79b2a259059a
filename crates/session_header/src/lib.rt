// The header that a session writes for a task's data, with the window's two numbers of now.
#![tactic(auto)]

ghost use Rattle.std.specs.Prelude.{◌≡◌, ◌≤◌, length};
ghost use Rattle.response_header.specs.declared.Numbers.{Numbers};
ghost use Rattle.response_header.specs.declared.Response.{Response};
ghost use Rattle.response_header.specs.Response.{header_bytes};
ghost use Rattle.response_layout.specs.WholeNumbers.{own_bytes};
ghost use Rattle.session_header.specs.Written.{IsWritten};

use response_header::Numbers;
use response_layout::OwnFields;
use window::Window;

// Writes a header of these fields, with this StatSN and the window's two numbers, into the first 48 bytes of out. Out is a slice: see
// `store::put`.
pub fn write_header(w: Window, stat_sn: u32, o: OwnFields, out: &mut [u8])
    requires { 48 ≤ length out.old }
    ensures { (r : Response) → ((n : Numbers) → header_bytes r n ≡ own_bytes o n) → IsWritten w stat_sn r out.old out.new }
{
    let exp_cmd_sn = window::exp_cmd_sn(w);
    let max_cmd_sn = window::max_cmd_sn(w);
    let n = Numbers {
        stat_sn,
        exp_cmd_sn,
        max_cmd_sn,
    };
    response_writer::place(out, 0, o, n);
}
