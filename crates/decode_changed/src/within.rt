// The rows that read nothing: their number, if they have one, is part of the code.

ghost use Rattle.std.specs.Prelude.{◌≡◌, List, ℕ, ◌/◌, ◌%◌, ◌<◌};
ghost use Rattle.record.specs.Answer.{answer_of};
ghost use Rattle.rows.specs.Rows.{flagged};
ghost use Rattle.rows.specs.Run.{run_row};
ghost use Rattle.by_manual.specs.Changed.{add_SP, flag, ldipl};
ghost use Rattle.decode_changed.specs.steps.Rows.{signed4, condition_opcode, flag_opcode};

use readers::answer;
use readers::answer::{Decoded, Face, NAMELESS};
use record::refusal::Refusal;
use record::{Opcode, Operand, Size, Width};

// The rows of 7D of which document 01's have marks or numbers of their own: those of decode_7c are other rows, and no value tells them apart.

// 7D An, LDIPL: 0 to 7.
pub(crate) fn load_level(b: u8) -> Decoded
    ensures { (bs : List ℕ) → answer_of result ≡ run_row (ldipl (b % 16)) bs }
{
    let n = b % 16;
    if 8 <= n {
        return answer::refuse_for(Refusal::InvalidOperand, 2);
    }
    let face = Face {
        opcode: Opcode::LDIPL,
        width: Width::W,
        op0: Operand::Imm8,
        ..NAMELESS
    };
    Ok(face.with(answer::begin(u32::from(n))))
}

// Four bits, with their sign. (`extended` of encode_added says it of a word: neither crate stands on the other.)
fn sign_extend(n: u8) -> u32
    requires { n < 16 }
    ensures { result ≡ signed4 n }
{
    if n < 8 {
        return u32::from(n);
    }
    0xFFFF_FFF0 + u32::from(n)
}

// 7D Bn, ADD Imm8,SP: -8 to 7.
pub(crate) fn add_stack(b: u8) -> Decoded
    ensures { (bs : List ℕ) → answer_of result ≡ run_row (add_SP (b % 16)) bs }
{
    let face = Face {
        opcode: Opcode::ADD,
        size: Size::W,
        width: Width::W,
        op0: Operand::Imm8,
        op1: Operand::SP,
        ..NAMELESS
    };
    Ok(face.with(answer::begin(sign_extend(b % 16))))
}

fn condition_opcode(n: u8) -> Opcode
    ensures { result ≡ condition_opcode n }
{
    match n {
        10 => Opcode::BMGE,
        13 => Opcode::BMNO,
        _ => Opcode::BMLT,
    }
}

// 7D DA, DD, DE: conditions of the carry flag.
pub(crate) fn condition(b: u8) -> Decoded
    ensures { (bs : List ℕ) → answer_of result ≡ run_row (flagged (condition_opcode (b % 16))) bs }
{
    let face = Face {
        opcode: condition_opcode(b % 16),
        width: Width::W,
        ..NAMELESS
    };
    Ok(face.with(answer::BEGIN))
}

fn flag_opcode(n: u8) -> Opcode
    ensures { result ≡ flag_opcode n }
{
    if n == 4 { Opcode::FSET } else { Opcode::FCLR }
}

// EB h4 FSET, h5 FCLR: the flag is h.
pub fn flag(b: u8) -> Decoded
    ensures { (bs : List ℕ) → answer_of result ≡ run_row (flag (flag_opcode (b % 16)) (b / 16)) bs }
{
    let face = Face {
        opcode: flag_opcode(b % 16),
        op0: Operand::Imm4,
        ..NAMELESS
    };
    Ok(face.with(answer::begin(u32::from(b / 16))))
}
