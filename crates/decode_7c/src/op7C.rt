ghost use Rattle.std.specs.Prelude.{◌≡◌, ◌/◌, ◌%◌};
ghost use Rattle.record.specs.Answer.{answer_of};
ghost use Rattle.rows.specs.Rows.{exts, exts_C, row_7C, row_7CF};
ghost use Rattle.rows.specs.Run.{run_row};
ghost use Rattle.decode_7c.specs.steps.Op7C.{nibble_mark, nibble};

use crate::shared;
use readers::answer::{self, BEGIN, Decoded, Face, NAMELESS};
use readers::{general, long, numbers, set};
use record::refusal::Refusal;
use record::{Opcode, Operand, Size, Width};

// The rows of 7C are at width B, those of 7D at W.
const AT_B: Face = Face {
    width: Width::B,
    ..NAMELESS
};

const MOVES: [Opcode; 4] = [Opcode::MOVLL, Opcode::MOVLH, Opcode::MOVHL, Opcode::MOVHH];

// MOVLH and MOVHL, which the manual has the other way round,
const MIXED: [bool; 4] = [false, true, true, false];

// where it gives the code a meaning: not with R0L, A0, A1.
fn nibble_mark(b: u8) -> bool
    ensures { result ≡ nibble_mark (b / 16) (b % 16) }
{
    let meant = set::has(0xFFCE, b % 16);
    // (`as` and no conversion, here and below: that is a call, one step more in each proof.)
    MIXED[(b / 16 % 4) as usize] & meant
}

// MOVLL and the like: from G(n) to R0L below h = 8, else from R0L to G(n).
fn move_nibble(bs: &[u8], b: u8) -> Decoded
    ensures { answer_of result ≡ run_row (nibble (b / 16) (b % 16)) bs.now }
{
    let h = b / 16;
    let s = general::general(bs, BEGIN, b % 16)?;
    let name = general::general_name(true, b);
    let (op0, op1) = if h < 4 {
        (name, Operand::R0L)
    } else {
        (Operand::R0L, name)
    };
    let face = Face {
        opcode: MOVES[(h % 4) as usize],
        op0,
        op1,
        marked: nibble_mark(b),
        ..AT_B
    };
    Ok(face.with(s))
}

// EXTS.B has no R0H, R1H, A0, A1.
fn extend_byte(bs: &[u8], b: u8) -> Decoded
    ensures { answer_of result ≡ run_row (exts (b % 16)) bs.now }
{
    // 1, 3, 4 and 5
    if set::has(0x3A, b % 16) {
        return answer::refuse_for(Refusal::InvalidOperand, 2);
    }
    let s = general::general(bs, BEGIN, b % 16)?;
    let face = Face {
        opcode: Opcode::EXTS,
        op0: general::general_name(true, b),
        ..AT_B
    };
    Ok(face.with(s))
}

// h = C: register pairs, then G.
fn extend_pair(bs: &[u8], b: u8) -> Decoded
    ensures { answer_of result ≡ run_row (exts_C (b % 16)) bs.now }
{
    if long::long_refused(b % 16) {
        return answer::refuse_for(Refusal::InvalidOperand, 2);
    }
    let s = general::general(bs, BEGIN, b % 16)?;
    let face = Face {
        opcode: Opcode::EXTS,
        op0: long::pair_name(b),
        marked: true,
        ..AT_B
    };
    Ok(face.with(s))
}

// ENTER: one byte.
fn enter(bs: &[u8]) -> Decoded
    ensures { answer_of result ≡ run_row (row_7CF 2) bs.now }
{
    let s = numbers::imm_byte(bs, BEGIN)?;
    let face = Face {
        opcode: Opcode::ENTER,
        op0: Operand::Imm8,
        ..AT_B
    };
    Ok(face.with(s))
}

// h = F, by n.
fn row_F(bs: &[u8], b: u8) -> Decoded
    ensures { answer_of result ≡ run_row (row_7CF (b % 16)) bs.now }
{
    let n = b % 16;
    let face = match n {
        0 => return shared::load_context(bs, true, Opcode::LDCTX),
        1 => Face {
            opcode: Opcode::RMPA,
            size: Size::B,
            ..AT_B
        },
        2 => return enter(bs),
        3 => Face {
            opcode: Opcode::EXTS,
            op0: Operand::R0,
            ..AT_B
        },
        _ => return answer::refuse_for(Refusal::InvalidOpcode, 2),
    };
    Ok(face.with(BEGIN))
}

pub fn decode_op7C(bs: &[u8], b: u8) -> Decoded
    ensures { answer_of result ≡ run_row (row_7C (b / 16) (b % 16)) bs.now }
{
    match b / 16 {
        4 => shared::mul_immediate(bs, true, true, b),
        5 => shared::mul_immediate(bs, true, false, b),
        6 => extend_byte(bs, b),
        7 | 13 => answer::refuse_for(Refusal::InvalidOpcode, 2),
        12 => extend_pair(bs, b),
        14 => shared::row_E(bs, true, b),
        15 => row_F(bs, b),
        // 0 to 3 and 8 to 11
        _ => move_nibble(bs, b),
    }
}
