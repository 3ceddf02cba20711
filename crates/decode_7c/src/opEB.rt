ghost use Rattle.std.specs.Prelude.{◌≡◌, List, [], ℕ, ◌/◌, ◌%◌};
ghost use Rattle.record.specs.Answer.{answer_of};
ghost use Rattle.record.specs.declared.Operand.TheVariants.{Nothing};
ghost use Rattle.record.specs.declared.Width.TheVariants as width;
ghost use Rattle.rows.specs.Codes.{name_K, K};
ghost use Rattle.rows.specs.Rows.{bare, star_if, long_shift, shift_opcode, shift_pair, mova, row_EB_low, row_EB};
ghost use Rattle.rows.specs.Run.{run_row};

use readers::answer::{self, BEGIN, Decoded, Face, NAMELESS};
use readers::{control, general, numbers};
use record::refusal::Refusal;
use record::{Opcode, Operand, Size, Width};

// LDC Imm16: the control register is judged before the two bytes. (PUSHC and POPC read none behind that, so only the judging is alike.)
fn load_control(bs: &[u8], b: u8) -> Decoded
    ensures { answer_of result ≡ run_row (row_EB_low (b / 16 % 8) 0) bs.now }
{
    if b / 16 % 8 == 0 {
        return answer::refuse_for(Refusal::InvalidOperand, 2);
    }
    let s = numbers::imm_word(bs, BEGIN)?;
    let face = Face {
        opcode: Opcode::LDC,
        op0: Operand::Imm16,
        op1: control::control_name(b / 16),
        ..NAMELESS
    };
    Ok(face.with(s))
}

// PUSHC and POPC.
fn control_alone(opcode: Opcode, b: u8) -> Decoded
    ensures { (bs : List ℕ) → answer_of result ≡ run_row (bare opcode width.None (name_K (b / 16 % 8)) Nothing (K (b / 16 % 8) [])) bs }
{
    if b / 16 % 8 == 0 {
        return answer::refuse_for(Refusal::InvalidOperand, 2);
    }
    let face = Face {
        opcode,
        op0: control::control_name(b / 16),
        ..NAMELESS
    };
    Ok(face.with(BEGIN))
}

// SHL.L, or SHA.L if h has bit 1.
fn shift_opcode(h: u8) -> Opcode
    ensures { result ≡ shift_opcode h }
{
    if h / 2 % 2 == 0 {
        Opcode::SHL
    } else {
        Opcode::SHA
    }
}

// R2R0, or R3R1 by bit 0.
fn shift_pair(h: u8) -> Operand
    ensures { result ≡ shift_pair h }
{
    if h % 2 == 0 {
        Operand::R2R0
    } else {
        Operand::R3R1
    }
}

// The long shifts, by R1H or by the raw code n.
fn shift_long(h: u8, by: Operand, number: u32, marked: bool) -> Decoded
    ensures { (bs : List ℕ) → answer_of result ≡ run_row (star_if marked (long_shift h by number)) bs }
{
    let face = Face {
        opcode: shift_opcode(h),
        size: Size::L,
        width: Width::None,
        op0: by,
        op1: shift_pair(h),
        marked,
    };
    Ok(face.with(answer::begin(number)))
}

// MOVA: h is below 8, so that only G(n) reads; the names are those at W.
fn move_address(bs: &[u8], b: u8) -> Decoded
    ensures { answer_of result ≡ run_row (mova (b / 16 % 8) (b % 16)) bs.now }
{
    let s = general::general(bs, BEGIN, b % 16)?;
    let h = b / 16 % 8;
    let face = Face {
        opcode: Opcode::MOVA,
        op0: general::general_name(false, b),
        op1: general::general_name(false, h),
        marked: 6 <= h,
        ..NAMELESS
    };
    Ok(face.with(s))
}

// h below 8, by n.
fn row_low(bs: &[u8], b: u8) -> Decoded
    ensures { answer_of result ≡ run_row (row_EB_low (b / 16 % 8) (b % 16)) bs.now }
{
    let h = b / 16 % 8;
    match b % 16 {
        0 => load_control(bs, b),
        1 => shift_long(h, Operand::R1H, 0, 4 <= h),
        2 => control_alone(Opcode::PUSHC, b),
        3 => control_alone(Opcode::POPC, b),
        // FSET and FCLR, of which nothing is set
        4 | 5 => {
            let face = Face {
                marked: true,
                ..NAMELESS
            };
            Ok(face.with(BEGIN))
        }
        6 | 7 => answer::refuse_for(Refusal::InvalidOperand, 2),
        _ => move_address(bs, b),
    }
}

#[tactic(auto, using(crate::proofs::AsRows::as_rows), unfolding(rows::specs::Run::run_row, rows::specs::Rows::row, rows::specs::Rows::row_EB))]
pub fn decode_opEB(bs: &[u8], b: u8) -> Decoded
    ensures { answer_of result ≡ run_row (row_EB (b / 16) (b % 16)) bs.now }
{
    if b < 0x80 {
        return row_low(bs, b);
    }
    if b < 0xC0 {
        return shift_long(b / 16, Operand::Imm4, u32::from(b % 16), false);
    }
    let face = Face {
        opcode: Opcode::INT,
        op0: Operand::Imm8,
        ..NAMELESS
    };
    Ok(face.with(answer::begin(u32::from(b % 64))))
}
