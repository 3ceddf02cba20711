// A line with a record, and what encoding it by a reading gives.
ghost use Rattle.std.specs.Prelude.{◌≡◌};
ghost use Rattle.by_manual.specs.Table.{table_by};
ghost use Rattle.encode_rules.specs.Written.{outcome};
ghost use Rattle.m16c_encode.specs.Numbers.{EncodesNumbers};
ghost use Rattle.replay.specs.Verdict.{Tells};
ghost use Rattle.replay.specs.Encoding.{Whole, record_in, Right};

use crate::form::Line;
use crate::{form, hex};

// Opcode, size, width, operands; imm_wide; dispabs and first; refusal, length, seven bytes.
pub(crate) fn is_whole(line: &Line, manual: bool) -> bool
    ensures { Tells result (Whole manual line.now) }
{
    let form = if manual {
        b"M########## ######## ######## # # ##############\n"
    } else {
        b"E########## ######## ######## # # ##############\n"
    };
    form::has(line, form)
}

// The twelve numbers of a record, as the C library takes them.
pub(crate) fn record_in(line: &Line) -> [u32; 12]
    ensures { result ≡ record_in line.now }
{
    [
        0,
        u32::from(hex::byte_at(line, 1)),
        u32::from(hex::digit_at(line, 3)),
        u32::from(hex::digit_at(line, 4)),
        u32::from(hex::byte_at(line, 5)),
        u32::from(hex::byte_at(line, 7)),
        u32::from(hex::byte_at(line, 9)),
        hex::long_at(line, 12),
        u32::from(hex::word_at(line, 21)),
        u32::from(hex::word_at(line, 25)),
        0,
        0,
    ]
}

// By the library's function of the reading: as C calls it, refusal and length apart.
fn encode_by(manual: bool, numbers: &[u32], buf: &mut [u8], written: &mut usize) -> u32
    ensures { EncodesNumbers (table_by manual) numbers.now buf.old 0 (outcome result written.new buf.new) }
{
    if manual {
        return m16c_encode_manual::m16c_encode_manual(numbers, buf, 0, written);
    }
    m16c_encode::m16c_encode(numbers, buf, 0, written)
}

pub(crate) fn agrees(line: &Line, manual: bool) -> bool
    ensures { Tells result (Right manual line.now) }
{
    let numbers = record_in(line);
    let mut buf = [0u8; 7];
    let mut written: usize = 0;
    let refusal = encode_by(manual, &numbers, &mut buf, &mut written);
    let found = (refusal, written, buf);
    let said = (
        u32::from(hex::digit_at(line, 30)),
        usize::from(hex::digit_at(line, 32)),
        hex::bytes_at(line, 34),
    );
    found == said
}
