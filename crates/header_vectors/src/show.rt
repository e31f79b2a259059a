// A read PDU as one line: its kind and its fields.
use request_header::{
    DataOut, Login, Logout, NopOut, Pdu, Request, ScsiCommand, Snack, TaskManagement,
};
use std::io;
use std::io::Write;

fn kind(r: Request) -> &'static str {
    match r {
        Request::NopOut(_) => "nop-out",
        Request::ScsiCommand(_) => "scsi-command",
        Request::TaskManagement(_) => "task-management",
        Request::Login(_) => "login",
        Request::DataOut(_) => "data-out",
        Request::Logout(_) => "logout",
        Request::Snack(_) => "snack",
    }
}

// The kind, and the fields that each kind has.
fn common<W: Write>(to: &mut W, p: Pdu) -> io::Result<()> {
    write!(
        to,
        "{} i={} cmdsn=0x{:08x} lun=0x{:016x} itt=0x{:08x} expstatsn=0x{:08x}",
        kind(p.request),
        p.immediate as u8,
        p.cmd_sn,
        p.lun,
        p.initiator_task_tag,
        p.exp_stat_sn,
    )
}

fn nop_out<W: Write>(to: &mut W, x: NopOut) -> io::Result<()> {
    write!(to, " ttt=0x{:08x}", x.target_transfer_tag)
}

fn scsi_command<W: Write>(to: &mut W, x: ScsiCommand) -> io::Result<()> {
    write!(
        to,
        " f={} r={} w={} attribute={} edtl=0x{:08x} cdb0=0x{:016x} cdb1=0x{:016x} ahs={}",
        x.is_final as u8,
        x.is_read as u8,
        x.is_write as u8,
        x.attribute,
        x.expected_data_transfer_length,
        x.cdb_0,
        x.cdb_1,
        x.total_ahs_length,
    )
}

fn task_management<W: Write>(to: &mut W, x: TaskManagement) -> io::Result<()> {
    write!(
        to,
        " function={} rtt=0x{:08x} refcmdsn=0x{:08x} expdatasn=0x{:08x}",
        x.function, x.referenced_task_tag, x.ref_cmd_sn, x.exp_data_sn,
    )
}

fn login<W: Write>(to: &mut W, x: Login) -> io::Result<()> {
    write!(
        to,
        " t={} c={} csg={} nsg={} versionmax={} versionmin={} isid=0x{:016x} tsih=0x{:04x} cid=0x{:04x}",
        x.transit as u8,
        x.continues as u8,
        x.csg,
        x.nsg,
        x.version_max,
        x.version_min,
        x.isid,
        x.tsih,
        x.cid,
    )
}

fn data_out<W: Write>(to: &mut W, x: DataOut) -> io::Result<()> {
    write!(
        to,
        " f={} ttt=0x{:08x} datasn=0x{:08x} offset=0x{:08x}",
        x.is_final as u8, x.target_transfer_tag, x.data_sn, x.buffer_offset,
    )
}

fn logout<W: Write>(to: &mut W, x: Logout) -> io::Result<()> {
    write!(to, " reason={} cid=0x{:04x}", x.reason, x.cid)
}

fn snack<W: Write>(to: &mut W, x: Snack) -> io::Result<()> {
    write!(
        to,
        " type={} ttt=0x{:08x} begrun=0x{:08x} runlength=0x{:08x}",
        x.snack_type, x.target_transfer_tag, x.beg_run, x.run_length,
    )
}

fn own<W: Write>(to: &mut W, r: Request) -> io::Result<()> {
    match r {
        Request::NopOut(x) => nop_out(to, x),
        Request::ScsiCommand(x) => scsi_command(to, x),
        Request::TaskManagement(x) => task_management(to, x),
        Request::Login(x) => login(to, x),
        Request::DataOut(x) => data_out(to, x),
        Request::Logout(x) => logout(to, x),
        Request::Snack(x) => snack(to, x),
    }
}

pub fn pdu<W: Write>(to: &mut W, p: Pdu) -> io::Result<()> {
    common(to, p)?;
    own(to, p.request)?;
    writeln!(to, " data={}+{}", p.data_start, p.data_segment_length)
}
