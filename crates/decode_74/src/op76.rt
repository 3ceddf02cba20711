#![tactic(auto, using(readers::proofs::RowSteps::steps, readers::proofs::RowSteps::second_behind_general, readers::proofs::Nibble::named_high), unfolding(rows::specs::Run::run_row, rows::specs::Rows::row, crate::specs::steps::Op76::unary76, crate::specs::steps::Op76::both76, crate::specs::steps::Op76::immediate76))]

ghost use Rattle.std.specs.Prelude.{◌≡◌, eqb, ◌/◌, ◌%◌};
ghost use Rattle.laws.specs.Choice.{pick};
ghost use Rattle.record.specs.declared.Size.TheVariants.{None};
ghost use Rattle.record.specs.Answer.{answer_of};
ghost use Rattle.rows.specs.Rows.{row76, size_of};
ghost use Rattle.rows.specs.Run.{run_row};
ghost use Rattle.readers.specs.steps.Width.{width_of};
ghost use Rattle.decode_74.specs.steps.Op76.{unary76, immediate76, both76};

use readers::answer::{Decoded, Face, NAMELESS};
use readers::{answer, general, numbers, set};
use record::{Opcode, Operand, Size};

const OPCODES: [Opcode; 16] = [
    Opcode::TST,
    Opcode::XOR,
    Opcode::AND,
    Opcode::OR,
    Opcode::ADD,
    Opcode::SUB,
    Opcode::ADC,
    Opcode::SBB,
    Opcode::CMP,
    Opcode::DIVX,
    Opcode::ROLC,
    Opcode::RORC,
    Opcode::DIVU,
    Opcode::DIV,
    Opcode::ADCF,
    Opcode::ABS,
];

// Only DIV carries a size.
fn unary_size(byte: bool, h: u8) -> Size
    ensures { result ≡ pick (eqb h 13) (size_of (width_of byte)) None }
{
    if h == 13 {
        return answer::size_of(byte);
    }
    Size::None
}

// ROLC, RORC, DIV and ABS: G(n) alone.
fn unary_76(bs: &[u8], byte: bool, b: u8) -> Decoded
    ensures { answer_of result ≡ run_row (unary76 (width_of byte) (b / 16) (b % 16)) bs.now }
{
    let h = b / 16;
    let s = general::general(bs, answer::BEGIN, b % 16)?;
    let face = Face {
        // (`as` and no conversion, here and below: that is a call, one step more in each proof.)
        opcode: OPCODES[h as usize],
        size: unary_size(byte, h),
        width: answer::width_of(byte),
        op0: general::general_name(byte, b),
        ..NAMELESS
    };
    Ok(face.with(s))
}

// DIVX and DIVU: the immediate alone, n is ignored.
fn immediate_76(bs: &[u8], byte: bool, b: u8) -> Decoded
    ensures { answer_of result ≡ run_row (immediate76 (width_of byte) (b / 16)) bs.now }
{
    let s = numbers::immediate(bs, byte, answer::BEGIN)?;
    let face = Face {
        opcode: OPCODES[(b / 16) as usize],
        size: answer::size_of(byte),
        width: answer::width_of(byte),
        op0: numbers::immediate_name(byte),
        op1: Operand::Nothing,
        marked: true,
    };
    Ok(face.with(s))
}

// TST to CMP, and ADCF: G(n) is read before the immediate.
fn both_76(bs: &[u8], byte: bool, b: u8) -> Decoded
    ensures { answer_of result ≡ run_row (both76 (width_of byte) (b / 16) (b % 16)) bs.now }
{
    let h = b / 16;
    let s = general::general(bs, answer::BEGIN, b % 16)?;
    let t = numbers::immediate(bs, byte, s)?;
    let face = Face {
        opcode: OPCODES[h as usize],
        size: answer::size_of(byte),
        width: answer::width_of(byte),
        op0: numbers::immediate_name(byte),
        op1: general::general_name(byte, b),
        marked: h == 14,
    };
    Ok(face.with(t))
}

pub fn decode_op76(bs: &[u8], byte: bool, b: u8) -> Decoded
    ensures { answer_of result ≡ run_row (row76 (width_of byte) (b / 16) (b % 16)) bs.now }
{
    let h = b / 16;
    // DIVX and DIVU
    if set::has(0x1200, h) {
        return immediate_76(bs, byte, b);
    }
    // ROLC, RORC, DIV and ABS
    if set::has(0xAC00, h) {
        return unary_76(bs, byte, b);
    }
    both_76(bs, byte, b)
}
