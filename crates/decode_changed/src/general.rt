// The rows that read G(n).
ghost use Rattle.std.specs.Prelude.{◌≡◌, ◌/◌, ◌%◌};
ghost use Rattle.record.specs.Answer.{answer_of};
ghost use Rattle.rows.specs.Run.{run_row};
ghost use Rattle.readers.specs.steps.Width.{width_of};
ghost use Rattle.by_manual.specs.Changed.{to_stack, alone, ldc, name_JW, word_jump};
ghost use Rattle.decode_changed.specs.steps.Rows.{alone_opcode, jump_opcode, mul_opcode, mul_size, mul_at};

use readers::answer::{Decoded, Face, NAMELESS};
use readers::{answer, control, general, long, mul, numbers};
use record::refusal::Refusal;
use record::{Opcode, Operand, Size, Width};

// 74/75 3n, MOV to the stack: the source is read, then SP's byte.
pub fn to_stack(bs: &[u8], byte: bool, b: u8) -> Decoded
    ensures { answer_of result ≡ run_row (to_stack (width_of byte) (b % 16)) bs.now }
{
    let source = general::general_name(byte, b);
    let s = general::general(bs, answer::BEGIN, b % 16)?;
    let t = numbers::disp_byte(bs, s)?;
    let face = Face {
        opcode: Opcode::MOV,
        size: answer::size_of(byte),
        width: answer::width_of(byte),
        op0: source,
        op1: Operand::Disp8_SP,
        ..NAMELESS
    };
    Ok(face.with(t))
}

fn alone_opcode(h: u8) -> Opcode
    ensures { result ≡ alone_opcode h }
{
    match h {
        9 => Opcode::DIVX,
        12 => Opcode::DIVU,
        _ => Opcode::ADCF,
    }
}

// 76/77 9n DIVX, Cn DIVU, En ADCF: G(n) alone.
pub fn alone(bs: &[u8], byte: bool, b: u8) -> Decoded
    ensures { answer_of result ≡ run_row (alone (alone_opcode (b / 16)) (width_of byte) (b % 16)) bs.now }
{
    let name = general::general_name(byte, b);
    let s = general::general(bs, answer::BEGIN, b % 16)?;
    let face = Face {
        opcode: alone_opcode(b / 16),
        size: answer::size_of(byte),
        width: answer::width_of(byte),
        op0: name,
        ..NAMELESS
    };
    Ok(face.with(s))
}

// 7A from 80 on, LDC: G is read, then the control register judged. The names are those at W. (Document 01's row, in decode_74, differs in
// these and its mark; a function for both would lie in a crate below both readings, for two values.)
pub fn load_control(bs: &[u8], b: u8) -> Decoded
    ensures { answer_of result ≡ run_row (ldc (b / 16 % 8) (b % 16)) bs.now }
{
    let s = general::general(bs, answer::BEGIN, b % 16)?;
    if b / 16 % 8 == 0 {
        return answer::refuse_for(Refusal::InvalidOperand, s.taken);
    }
    let face = Face {
        opcode: Opcode::LDC,
        width: Width::B,
        op0: general::general_name(false, b),
        op1: control::control_name(b / 16),
        ..NAMELESS
    };
    Ok(face.with(s))
}

fn mul_opcode(h: u8) -> Opcode
    ensures { result ≡ mul_opcode h }
{
    if h == 4 { Opcode::MULU } else { Opcode::MUL }
}

// MULU carries a size, MUL does not.
fn mul_size(byte: bool, h: u8) -> Size
    ensures { result ≡ mul_size (width_of byte) h }
{
    if h == 4 {
        return answer::size_of(byte);
    }
    Size::None
}

// 7C/7D 4n MULU, 5n MUL: G(n) is judged and read, then the immediate.
pub fn mul_immediate(bs: &[u8], byte: bool, b: u8) -> Decoded
    ensures { answer_of result ≡ run_row (mul_at (width_of byte) (b / 16) (b % 16)) bs.now }
{
    if mul::bad_mul(byte, b % 16) {
        return answer::refuse_for(Refusal::InvalidOperand, 2);
    }
    let s = general::general(bs, answer::BEGIN, b % 16)?;
    let t = numbers::immediate(bs, byte, s)?;
    let face = Face {
        opcode: mul_opcode(b / 16),
        size: mul_size(byte, b / 16),
        width: answer::width_of(byte),
        op0: numbers::immediate_name(byte),
        op1: general::general_name(byte, b),
        ..NAMELESS
    };
    Ok(face.with(t))
}

fn jump_opcode(h: u8) -> Opcode
    ensures { result ≡ jump_opcode h }
{
    if h == 2 { Opcode::JMPI } else { Opcode::JSRI }
}

// Word registers, and from code 6 on the names of the long jumps: of these C and D alone differ from G's.
fn word_name(b: u8) -> Operand
    ensures { result ≡ name_JW (b % 16) }
{
    if b % 16 / 2 == 6 {
        return long::long_name(b);
    }
    general::general_name(false, b)
}

// 7D 2n JMPI.W, 3n JSRI.W. The bytes are passed anew, as to the groups of 76 and 78 (docs/DECISIONS.md).
pub(crate) fn word_jump(bs: &[u8], b: u8) -> Decoded
    ensures { answer_of result ≡ run_row (word_jump (jump_opcode (b / 16)) (b % 16)) bs.now }
{
    let s = long::long(&bs[0..], answer::BEGIN, b % 16)?;
    let face = Face {
        opcode: jump_opcode(b / 16),
        size: Size::W,
        width: Width::W,
        op0: word_name(b),
        ..NAMELESS
    };
    Ok(face.with(s))
}
