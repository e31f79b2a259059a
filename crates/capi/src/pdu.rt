// The header reader and writer for C. Contracts: as in `calls`.
ghost use Rattle.std.specs.Prelude.{◌≡◌};
ghost use Rattle.request_header.specs.Request.{limits, read_pdu};
ghost use Rattle.response_writer.specs.Writing.{Outcome};
ghost use Rattle.request_words.specs.RequestWords.{ReadWords, read_words};
ghost use Rattle.response_words.specs.ResponseWords.{response_of};
ghost use Rattle.write_words.specs.WriteWords.{write_words, numbers_of};

use request_header::LIMITS;

// Reads a PDU: 0 and its words, or the refusal's number, which leaves both arrays as they were.
#[unsafe(no_mangle)]
pub extern "C" fn drawbevel_core_read(
    input: &[u8],
    common: &mut [u64; 8],
    own: &mut [u64; 9],
) -> u32
    ensures { ◌≡◌ {A = ReadWords} (record { answer = result; common = common.new; own = own.new }) (read_words (read_pdu limits input.now) common.old own.old) }
{
    pdu_words::read(input, LIMITS, common, own)
}

// Writes a response's header into the first 48 bytes of out: 0, or the refusal's number, which leaves every byte.
// Words that are no response are TOOLONG by the data length that they state, else FIELD; both after BUFFER.
#[unsafe(no_mangle)]
pub extern "C" fn drawbevel_core_write(
    out: &mut [u8],
    words: &[u64; 10],
    stat_sn: u32,
    exp_cmd_sn: u32,
    max_cmd_sn: u32,
) -> u32
    ensures { ◌≡◌ {A = Outcome} (record { answer = result; bytes = out.new }) (write_words (response_of words.now) out.old (numbers_of stat_sn exp_cmd_sn max_cmd_sn)) }
{
    write_words::write(out, words, stat_sn, exp_cmd_sn, max_cmd_sn)
}
