// A line with a record and an operand, and the operand's number.
ghost use Rattle.std.specs.Prelude.{◌≡◌};
ghost use Rattle.replay.specs.Verdict.{Tells};
ghost use Rattle.replay.specs.Asking.{Whole, number_in, Right};

use crate::form::Line;
use crate::{encoding, form, hex};

// Opcode, size, width, operands; imm_wide; dispabs and first; operand asked for, refusal; sign, distance from zero.
pub(crate) fn is_whole(line: &Line) -> bool
    ensures { Tells result (Whole line.now) }
{
    let form = b"N########## ######## ######## # # #     ########\n";
    form::has(line, form)
}

fn number_in(line: &Line) -> i64
    ensures { result ≡ number_in line.now }
{
    let distance = i64::from(hex::long_at(line, 40));
    match hex::digit_at(line, 34) {
        0 => distance,
        _ => -distance,
    }
}

pub(crate) fn agrees(line: &Line) -> bool
    ensures { Tells result (Right line.now) }
{
    let numbers = encoding::record_in(line);
    let asked = usize::from(hex::digit_at(line, 30));
    let mut number: i64 = 0;
    let refusal = m16c_operand_number::m16c_operand_number(&numbers, asked, &mut number);
    (refusal, number) == (u32::from(hex::digit_at(line, 32)), number_in(line))
}
