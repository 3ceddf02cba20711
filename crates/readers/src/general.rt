ghost use Rattle.std.specs.Prelude.{◌≡◌, ◌%◌};
ghost use Rattle.rows.specs.Row.{disp};
ghost use Rattle.rows.specs.Codes.{name_G, size_G};
ghost use Rattle.readers.specs.steps.Told.{found_in};
ghost use Rattle.readers.specs.steps.Width.{width_of};

use crate::numbers;
use record::refusal::Refused;
use record::{Operand, Seen};

// Names by code: at W, at B, then what other forms have in place of those at W: pairs at codes 0 to 5, J at C and D. One table, so
// that a width picks a place in it; sharing the twelve names from A0 on takes more code than it saves. Nothing stands where no pair is,
// as `name_P` of rows/specs/Codes has it: J refuses these codes itself.
pub(crate) const NAMES: [Operand; 40] = [
    Operand::R0,
    Operand::R1,
    Operand::R2,
    Operand::R3,
    Operand::A0,
    Operand::A1,
    Operand::Deref_A0,
    Operand::Deref_A1,
    Operand::Disp8_A0,
    Operand::Disp8_A1,
    Operand::Disp8_SB,
    Operand::Disp8_FB,
    Operand::Disp16_A0,
    Operand::Disp16_A1,
    Operand::Disp16_SB,
    Operand::Abs16,
    Operand::R0L,
    Operand::R0H,
    Operand::R1L,
    Operand::R1H,
    Operand::A0,
    Operand::A1,
    Operand::Deref_A0,
    Operand::Deref_A1,
    Operand::Disp8_A0,
    Operand::Disp8_A1,
    Operand::Disp8_SB,
    Operand::Disp8_FB,
    Operand::Disp16_A0,
    Operand::Disp16_A1,
    Operand::Disp16_SB,
    Operand::Abs16,
    Operand::R2R0,
    Operand::R3R1,
    Operand::Nothing,
    Operand::Nothing,
    Operand::A1A0,
    Operand::Nothing,
    Operand::Disp20_A0,
    Operand::Disp20_A1,
];

// G(code): its name, by the low nibble.
pub fn general_name(byte: bool, code: u8) -> Operand
    ensures { result ≡ name_G (width_of byte) (code % 16) }
{
    // (`as` and no conversion, here and below: that is a call, one step more in each proof.)
    let n = (code % 16) as usize;
    if byte { NAMES[16 + n] } else { NAMES[n] }
}

// G(code): its displacement, none below 8, one byte below 12, two from there.
pub fn general(bs: &[u8], s: Seen, code: u8) -> Result<Seen, Refused>
    ensures { result ≡ found_in (disp (size_G code)) bs.now s }
{
    if code < 8 {
        return Ok(s);
    }
    if code < 12 {
        return numbers::disp_byte(bs, s);
    }
    numbers::disp_word(bs, s)
}
