ghost use Rattle.std.specs.Prelude.{◌≡◌, ◌/◌, ◌%◌, ◌<◌};
ghost use Rattle.laws.specs.Choice.{pick};
ghost use Rattle.record.specs.Answer.{answer_of};
ghost use Rattle.rows.specs.Rows.{row74};
ghost use Rattle.rows.specs.Run.{run_row};
ghost use Rattle.readers.specs.steps.Told.{found_in};
ghost use Rattle.readers.specs.steps.Width.{width_of};
ghost use Rattle.decode_74.specs.steps.Op74.{size74, other74, rest74, stop74};

use readers::answer::{Decoded, Face};
use readers::{answer, general, numbers, set};
use record::refusal::{Refusal, Refused};
use record::{Opcode, Operand, Seen, Size};

const OPCODES: [Opcode; 16] = [
    Opcode::STE,
    Opcode::STE,
    Opcode::STE,
    Opcode::MOV,
    Opcode::PUSH,
    Opcode::NEG,
    Opcode::ROT,
    Opcode::NOT,
    Opcode::LDE,
    Opcode::LDE,
    Opcode::LDE,
    Opcode::MOV,
    Opcode::MOV,
    Opcode::POP,
    Opcode::SHL,
    Opcode::SHA,
];

// The operand beside G(n); MOV's immediate goes by the width.
const OTHERS: [Operand; 16] = [
    Operand::Abs20,
    Operand::Disp20_A0,
    Operand::Deref_A1A0,
    Operand::Disp8_SP,
    Operand::Nothing,
    Operand::Nothing,
    Operand::R1H,
    Operand::Nothing,
    Operand::Abs20,
    Operand::Disp20_A0,
    Operand::Deref_A1A0,
    Operand::Disp8_SP,
    Operand::Nothing,
    Operand::Nothing,
    Operand::R1H,
    Operand::R1H,
];

// MOV, PUSH, ROT, NOT, SHL and SHA carry a size: h mod 8 is 3, 4, 6 or 7.
fn size_74(byte: bool, h: u8) -> Size
    ensures { result ≡ size74 (width_of byte) h }
{
    if set::has(0xD8, h % 8) {
        return answer::size_of(byte);
    }
    Size::None
}

fn other_74(byte: bool, h: u8) -> Operand
    requires { h < 16 }
    ensures { result ≡ other74 (width_of byte) h }
{
    if h == 12 {
        return numbers::immediate_name(byte);
    }
    // (`as` and no conversion, here and below: that is a call, one step more in each proof.)
    OTHERS[h as usize]
}

// ROT, SHL and SHA, 6, E and F: R1 at W and R1H at B can't be shifted.
fn stop_74(byte: bool, h: u8, n: u8) -> bool
    requires { h < 16 }
    ensures { result ≡ stop74 (width_of byte) h n }
{
    if set::has(0xC040, h) {
        if byte {
            return n == 3;
        }
        return n == 1;
    }
    false
}

// What stands behind G(n): 20 bits for STE and LDE at h mod 8 = 0, 1.
fn rest_74(bs: &[u8], byte: bool, h: u8, s: Seen) -> Result<Seen, Refused>
    ensures { result ≡ found_in (rest74 (width_of byte) h) bs.now s }
{
    if h % 8 < 2 {
        return numbers::long20(bs, s);
    }
    if h == 11 {
        return numbers::disp_byte(bs, s);
    }
    if h == 12 {
        return numbers::immediate(bs, byte, s);
    }
    Ok(s)
}

fn in_order(first: bool, name: Operand, other: Operand) -> (Operand, Operand)
    ensures { (result.0 ≡ pick first name other) × (result.1 ≡ pick first other name) }
{
    if first { (name, other) } else { (other, name) }
}

pub fn decode_op74(bs: &[u8], byte: bool, b: u8) -> Decoded
    ensures { answer_of result ≡ run_row (row74 (width_of byte) (b / 16) (b % 16)) bs.now }
{
    let h = b / 16;
    let n = b % 16;
    if stop_74(byte, h, n) {
        return answer::refuse_for(Refusal::InvalidOperand, 2);
    }
    let s = general::general(bs, answer::BEGIN, n)?;
    let t = rest_74(bs, byte, h, s)?;
    let name = general::general_name(byte, b);
    let other = other_74(byte, h);
    // whether G(n) is operand 0
    let first = (h < 6) | (h == 7) | (h == 13);
    let (op0, op1) = in_order(first, name, other);
    let face = Face {
        opcode: OPCODES[h as usize],
        size: size_74(byte, h),
        width: answer::width_of(byte),
        op0,
        op1,
        marked: h == 3,
    };
    Ok(face.with(t))
}
