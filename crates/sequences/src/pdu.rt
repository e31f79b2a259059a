// The PDUs of the sequences.
use field::{NONE, pair, put};

// A SCSI Command that writes (F and W), with its CmdSN and Initiator Task Tag.
pub(crate) fn write_command(cmd_sn: u32, initiator_task_tag: u32) -> [u8; 48] {
    let mut pdu = [0u8; 48];
    put(&mut pdu, 0, 0x01a0_0000_0000_0000);
    put(&mut pdu, 16, pair(initiator_task_tag, 0));
    put(&mut pdu, 24, pair(cmd_sn, 0));
    pdu
}

// A status SNACK.
pub(crate) fn status_snack(beg_run: u32, run_length: u32) -> [u8; 48] {
    let mut pdu = [0u8; 48];
    put(&mut pdu, 0, 0x1081_0000_0000_0000);
    put(&mut pdu, 16, pair(NONE, NONE));
    put(&mut pdu, 40, pair(beg_run, run_length));
    pdu
}
