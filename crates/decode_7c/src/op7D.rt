ghost use Rattle.std.specs.Prelude.{◌≡◌, ◌<◌, List, ℕ, ◌/◌, ◌%◌};
ghost use Rattle.record.specs.Answer.{answer_of};
ghost use Rattle.rows.specs.Rows.{add_SP, ldipl, pusha, row_7D, row_7DC, row_7DD, row_7DF};
ghost use Rattle.rows.specs.Run.{run_row};
ghost use Rattle.decode_7c.specs.steps.Op7D.{opcode_J, signed3, no_condition, jump_by};

use crate::shared;
use readers::answer::{self, BEGIN, Decoded, Face, NAMELESS};
use readers::{general, long, numbers, set};
use record::refusal::Refusal;
use record::{Opcode, Operand, Size, Width};

// The rows of 7D are at width W, those of 7C at B.
const AT_W: Face = Face {
    width: Width::W,
    ..NAMELESS
};

// (decode_changed has one of its own: there h is 2 or 3, and its row says so.)
fn jump_opcode(h: u8) -> Opcode
    ensures { result ≡ opcode_J h }
{
    if h % 2 == 0 {
        Opcode::JMPI
    } else {
        Opcode::JSRI
    }
}

// JMPI and JSRI, marked from h = 2 on.
fn indirect(bs: &[u8], b: u8) -> Decoded
    ensures { answer_of result ≡ run_row (jump_by (b / 16) (b % 16)) bs.now }
{
    if long::long_refused(b % 16) {
        return answer::refuse_for(Refusal::InvalidOperand, 2);
    }
    let s = long::long(bs, BEGIN, b % 16)?;
    let h = b / 16;
    let face = Face {
        opcode: jump_opcode(h),
        op0: long::long_name(b),
        marked: 2 <= h,
        ..AT_W
    };
    Ok(face.with(s))
}

// PUSHA has no code below 8.
fn push_address(bs: &[u8], b: u8) -> Decoded
    ensures { answer_of result ≡ run_row (pusha (b % 16)) bs.now }
{
    let n = b % 16;
    if n < 8 {
        return answer::refuse_for(Refusal::InvalidOperand, 2);
    }
    let s = general::general(bs, BEGIN, n)?;
    let face = Face {
        opcode: Opcode::PUSHA,
        op0: general::general_name(false, b),
        ..AT_W
    };
    Ok(face.with(s))
}

// Three bits with their sign.
fn sign_extend(n: u8) -> u32
    requires { n < 8 }
    ensures { result ≡ signed3 n }
{
    if n < 4 {
        return u32::from(n);
    }
    0xFFFF_FFF8 + u32::from(n)
}

// LDIPL: the number is part of the code.
fn load_level(b: u8) -> Decoded
    ensures { (bs : List ℕ) → answer_of result ≡ run_row (ldipl (b % 16)) bs }
{
    let n = b % 16;
    if 8 <= n {
        return answer::refuse_for(Refusal::InvalidOperand, 2);
    }
    let face = Face {
        opcode: Opcode::LDIPL,
        op0: Operand::Imm8,
        marked: true,
        ..AT_W
    };
    Ok(face.with(answer::begin(sign_extend(n))))
}

// ADD Imm8,SP: the number is part of the code.
fn add_stack(b: u8) -> Decoded
    ensures { (bs : List ℕ) → answer_of result ≡ run_row (add_SP (b % 16)) bs }
{
    let face = Face {
        opcode: Opcode::ADD,
        size: Size::W,
        width: Width::W,
        op0: Operand::Imm8,
        op1: Operand::SP,
        marked: true,
    };
    Ok(face.with(answer::begin(u32::from(b % 16 % 8))))
}

// From code 8 on. (B and F name none: with `Option`s for these the table is copied before it is read, and a sweep of 7D takes three instructions
// more.)
const JUMPS: [Opcode; 8] = [
    Opcode::JLE,
    Opcode::JO,
    Opcode::JGE,
    Opcode::NOP,
    Opcode::JGT,
    Opcode::JNO,
    Opcode::JLT,
    Opcode::NOP,
];

// B and F name no condition.
fn no_condition(n: u8) -> bool
    requires { n < 16 }
    ensures { result ≡ no_condition n }
{
    set::has(0x8800, n)
}

// Jumps on a condition: one byte.
fn jump(bs: &[u8], b: u8) -> Decoded
    ensures { answer_of result ≡ run_row (row_7DC (b % 16)) bs.now }
{
    let n = b % 16;
    if n < 8 {
        return answer::refuse_for(Refusal::InvalidOpcode, 2);
    }
    if no_condition(n) {
        return answer::refuse_for(Refusal::InvalidOpcode, 2);
    }
    let s = numbers::imm_byte(bs, BEGIN)?;
    let face = Face {
        // (`as` and no conversion, here and below: that is a call, one step more in each proof.)
        opcode: JUMPS[(n % 8) as usize],
        op0: Operand::Disp8,
        ..AT_W
    };
    Ok(face.with(s))
}

const CONDITIONS: [Opcode; 16] = [
    Opcode::BMGEU,
    Opcode::BMGTU,
    Opcode::BMEQ,
    Opcode::BMN,
    Opcode::BMLTU,
    Opcode::BMLEU,
    Opcode::BMNE,
    Opcode::BMPZ,
    Opcode::BMLE,
    Opcode::BMO,
    Opcode::GE,
    Opcode::NOP,
    Opcode::BMGT,
    Opcode::NO,
    Opcode::LT,
    Opcode::NOP,
];

// A condition by n; GE, NO and LT are marked.
fn conditional(b: u8) -> Decoded
    ensures { (bs : List ℕ) → answer_of result ≡ run_row (row_7DD (b % 16)) bs }
{
    let n = b % 16;
    if no_condition(n) {
        return answer::refuse_for(Refusal::InvalidOpcode, 2);
    }
    let face = Face {
        opcode: CONDITIONS[n as usize],
        marked: set::has(0x6400, n),
        ..AT_W
    };
    Ok(face.with(BEGIN))
}

// h = F, by n.
fn row_F(bs: &[u8], b: u8) -> Decoded
    ensures { answer_of result ≡ run_row (row_7DF (b % 16)) bs.now }
{
    let n = b % 16;
    let face = match n {
        0 => return shared::load_context(bs, false, Opcode::STCTX),
        1 => Face {
            opcode: Opcode::RMPA,
            size: Size::W,
            ..AT_W
        },
        2 => Face {
            opcode: Opcode::EXITD,
            ..AT_W
        },
        3 => Face {
            opcode: Opcode::WAIT,
            ..AT_W
        },
        _ => return answer::refuse_for(Refusal::InvalidOpcode, 2),
    };
    Ok(face.with(BEGIN))
}

pub fn decode_op7D(bs: &[u8], b: u8) -> Decoded
    ensures { answer_of result ≡ run_row (row_7D (b / 16) (b % 16)) bs.now }
{
    match b / 16 {
        4 => shared::mul_immediate(bs, false, true, b),
        5 => shared::mul_immediate(bs, false, false, b),
        6 | 7 | 8 => answer::refuse_for(Refusal::InvalidOpcode, 2),
        9 => push_address(bs, b),
        10 => load_level(b),
        11 => add_stack(b),
        12 => jump(bs, b),
        13 => conditional(b),
        14 => shared::row_E(bs, false, b),
        15 => row_F(bs, b),
        // below 4
        _ => indirect(bs, b),
    }
}
