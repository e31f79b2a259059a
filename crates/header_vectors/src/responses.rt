// Responses at each rule's boundary, written into a lent buffer of 52 bytes 0xee.
use response_header::{
    DataIn, LoginResponse, LogoutResponse, MAX_DATA, NopIn, Numbers, R2t, Reject, Response,
    ScsiResponse, TaskManagementResponse,
};
use std::io;
use std::io::Write;

fn put_bytes<W: Write>(to: &mut W, bytes: &[u8]) -> io::Result<()> {
    for b in bytes {
        write!(to, "{b:02x}")?;
    }
    writeln!(to)
}

// Lends the first size bytes to the writer, and prints what it answers.
fn write_first<W: Write>(
    to: &mut W,
    buffer: &mut [u8],
    size: usize,
    r: Response,
) -> io::Result<()> {
    if buffer.len() < size {
        return Ok(());
    }
    let numbers = Numbers {
        stat_sn: 0x0102_0304,
        exp_cmd_sn: 0x1112_1314,
        max_cmd_sn: 0x2122_2324,
    };
    match response_writer::write(&mut buffer[..size], r, numbers, MAX_DATA) {
        Ok(()) => writeln!(to, "written"),
        Err(f) => writeln!(to, "{f}"),
    }
}

// What writing answers where this many of the 52 bytes are lent, and all 52 after it.
fn lent<W: Write>(to: &mut W, name: &str, r: Response, size: usize) -> io::Result<()> {
    let mut out = [0xeeu8; 52];
    write!(to, "{name}: ")?;
    write_first(to, &mut out, size, r)?;
    put_bytes(to, &out)
}

fn nop_in<W: Write>(to: &mut W, name: &str, length: u32, size: usize) -> io::Result<()> {
    lent(
        to,
        name,
        Response::NopIn(NopIn {
            data_segment_length: length,
            lun: 0x8182_8384_8586_8788,
            initiator_task_tag: 0x3132_3334,
            target_transfer_tag: 0x4142_4344,
        }),
        size,
    )
}

fn scsi_response<W: Write>(
    to: &mut W,
    name: &str,
    overflow: bool,
    underflow: bool,
    length: u32,
    exp_data_sn: u32,
) -> io::Result<()> {
    lent(
        to,
        name,
        Response::ScsiResponse(ScsiResponse {
            overflow,
            underflow,
            response: 0x51,
            status: 0x52,
            data_segment_length: length,
            initiator_task_tag: 0x3132_3334,
            snack_tag: 0x4142_4344,
            residual_count: 0x5152_5354,
            exp_data_sn,
        }),
        52,
    )
}

fn login_response<W: Write>(
    to: &mut W,
    name: &str,
    transit: bool,
    csg: u8,
    nsg: u8,
    isid: u64,
) -> io::Result<()> {
    lent(
        to,
        name,
        Response::LoginResponse(LoginResponse {
            transit,
            csg,
            nsg,
            data_segment_length: 0x102,
            isid,
            tsih: 0x6162,
            initiator_task_tag: 0x3132_3334,
            status_class: 0x71,
            status_detail: 0x72,
        }),
        52,
    )
}

fn data_in<W: Write>(
    to: &mut W,
    name: &str,
    is_final: bool,
    acknowledge: bool,
    length: u32,
) -> io::Result<()> {
    lent(
        to,
        name,
        Response::DataIn(DataIn {
            is_final,
            acknowledge,
            data_segment_length: length,
            lun: 0x8182_8384_8586_8788,
            initiator_task_tag: 0x3132_3334,
            target_transfer_tag: 0x4142_4344,
            data_sn: 0x6162_6364,
            buffer_offset: 0x7172_7374,
        }),
        52,
    )
}

fn r2t<W: Write>(to: &mut W, name: &str) -> io::Result<()> {
    lent(
        to,
        name,
        Response::R2t(R2t {
            lun: 0x8182_8384_8586_8788,
            initiator_task_tag: 0x3132_3334,
            target_transfer_tag: 0x4142_4344,
            r2t_sn: 0x6162_6364,
            buffer_offset: 0x7172_7374,
            desired_data_transfer_length: 0x5152_5354,
        }),
        52,
    )
}

fn others<W: Write>(to: &mut W) -> io::Result<()> {
    lent(
        to,
        "task management response",
        Response::TaskManagementResponse(TaskManagementResponse {
            response: 0x51,
            initiator_task_tag: 0x3132_3334,
        }),
        52,
    )?;
    lent(
        to,
        "logout response",
        Response::LogoutResponse(LogoutResponse {
            response: 0x51,
            initiator_task_tag: 0x3132_3334,
            time2wait: 0x6162,
            time2retain: 0x7172,
        }),
        52,
    )?;
    lent(to, "reject", Response::Reject(Reject { reason: 0x51 }), 52)
}

// Data-In's StatSN is 0 although a number is given.
fn data_phase<W: Write>(to: &mut W) -> io::Result<()> {
    scsi_response(to, "scsi response, ExpDataSN", false, false, 4, 0x6162_6364)?;
    data_in(to, "data-in, F", true, false, 4)?;
    data_in(to, "data-in, A", false, true, 4)?;
    data_in(to, "data-in, F and A, 8192 bytes", true, true, 8192)?;
    data_in(to, "data-in, neither F nor A", false, false, 4)?;
    r2t(to, "r2t")
}

pub fn run_all<W: Write>(to: &mut W) -> io::Result<()> {
    writeln!(to, "# written: 48 bytes and those that stay")?;
    nop_in(to, "nop-in of 8192 bytes", 8192, 52)?;
    nop_in(to, "into 48 bytes", 0, 48)?;
    others(to)?;
    scsi_response(to, "scsi response, neither O nor U", false, false, 4, 0)?;
    scsi_response(to, "scsi response, O", true, false, 4, 0)?;
    scsi_response(to, "scsi response, U", false, true, 4, 0)?;
    login_response(to, "login response, T", true, 1, 3, 0xffff_ffff_ffff)?;
    login_response(to, "login response, no T", false, 3, 0, 0x8081_8283_8485)?;
    data_phase(to)?;
    writeln!(to, "# refused, and every byte stays")?;
    nop_in(to, "into 47 bytes", 9000, 47)?;
    nop_in(to, "nop-in of 8193 bytes", 8193, 52)?;
    scsi_response(to, "scsi response, O and U", true, true, 8192, 0)?;
    scsi_response(
        to,
        "scsi response, O and U, 8193 bytes",
        true,
        true,
        8193,
        0,
    )?;
    login_response(to, "login response, csg 4", true, 4, 3, 0)?;
    login_response(to, "login response, nsg 4", true, 1, 4, 0)?;
    login_response(to, "login response, nsg without T", false, 1, 3, 0)?;
    login_response(
        to,
        "login response, isid of 49 bits",
        true,
        1,
        3,
        0x1_0000_0000_0000,
    )?;
    data_in(to, "data-in of 8193 bytes", true, false, 8193)
}
