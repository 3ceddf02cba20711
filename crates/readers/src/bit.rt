ghost use Rattle.std.specs.Prelude.{◌≡◌, ◌%◌};
ghost use Rattle.rows.specs.Row.{disp};
ghost use Rattle.rows.specs.Codes.{name_T, size_T};
ghost use Rattle.readers.specs.steps.Told.{found_in};

use crate::{general, numbers};
use record::refusal::Refused;
use record::{Operand, Seen};

const NAMES: [Operand; 16] = [
    Operand::Bit_R0,
    Operand::Bit_R1,
    Operand::Bit_R2,
    Operand::Bit_R3,
    Operand::Bit_A0,
    Operand::Bit_A1,
    Operand::Bit_Deref_A0,
    Operand::Bit_Deref_A1,
    Operand::Bit_Disp8_A0,
    Operand::Bit_Disp8_A1,
    Operand::Bit_Disp8_SB,
    Operand::Bit_Disp8_FB,
    Operand::Bit_Disp16_A0,
    Operand::Bit_Disp16_A1,
    Operand::Bit_Disp16_SB,
    Operand::Bit_Abs16,
];

// T(code): its name, by the low nibble.
pub fn bit_name(code: u8) -> Operand
    ensures { result ≡ name_T (code % 16) }
{
    // (`as` and no conversion, here and below: that is a call, one step more in each proof.)
    NAMES[(code % 16) as usize]
}

// T(code): registers have the bit's number in a byte, the rest is as G.
pub fn bit(bs: &[u8], s: Seen, code: u8) -> Result<Seen, Refused>
    ensures { result ≡ found_in (disp (size_T code)) bs.now s }
{
    if code < 6 {
        return numbers::disp_byte(bs, s);
    }
    general::general(bs, s, code)
}
