// What 7C and 7D have together: byte is true on 7C.
ghost use Rattle.std.specs.Prelude.{◌≡◌, ◌%◌};
ghost use Rattle.record.specs.Answer.{answer_of};
ghost use Rattle.rows.specs.Rows.{context, row_E};
ghost use Rattle.rows.specs.Run.{run_row};
ghost use Rattle.readers.specs.steps.Width.{width_of};
ghost use Rattle.decode_7c.specs.steps.Shared.{mul_by, size_E, from_E, to_E};

use readers::answer::{self, BEGIN, Decoded, Face, NAMELESS};
use readers::{mul, numbers, set};
use record::refusal::Refusal;
use record::{Opcode, Operand, Size, Width};

// MULU and MUL with an immediate: the destination is judged by n, and is A0 or A1 all the same. (Bools, as the width is one: see `width_of`.)
pub fn mul_immediate(bs: &[u8], byte: bool, unsigned: bool, b: u8) -> Decoded
    ensures { answer_of result ≡ run_row (mul_by unsigned (width_of byte) (b % 16)) bs.now }
{
    if mul::bad_mul(byte, b % 16) {
        return answer::refuse_for(Refusal::InvalidOperand, 2);
    }
    let s = numbers::immediate(bs, byte, BEGIN)?;
    let face = Face {
        width: answer::width_of(byte),
        op0: numbers::immediate_name(byte),
        marked: true,
        ..NAMELESS
    };
    if unsigned {
        let mulu = Face {
            opcode: Opcode::MULU,
            size: answer::size_of(byte),
            op1: Operand::A0,
            ..face
        };
        return Ok(mulu.with(s));
    }
    let mul = Face {
        opcode: Opcode::MUL,
        op1: Operand::A1,
        ..face
    };
    Ok(mul.with(s))
}

const OPCODES: [Opcode; 16] = [
    Opcode::DIVU,
    Opcode::DIV,
    Opcode::PUSH,
    Opcode::DIVX,
    Opcode::DADD,
    Opcode::DSUB,
    Opcode::DADC,
    Opcode::DSBB,
    Opcode::SMOVF,
    Opcode::SMOVB,
    Opcode::SSTR,
    Opcode::ADD,
    Opcode::DADD,
    Opcode::DSUB,
    Opcode::DADC,
    Opcode::DSBB,
];

// DADD and the like carry no size.
fn size_E(byte: bool, decimal: bool) -> Size
    ensures { result ≡ size_E decimal (width_of byte) }
{
    if decimal {
        return Size::None;
    }
    answer::size_of(byte)
}

// Operand 0 where it is no immediate.
fn from_E(byte: bool, decimal: bool) -> Operand
    ensures { result ≡ from_E decimal (width_of byte) }
{
    match (decimal, byte) {
        (true, true) => Operand::R0H,
        (true, false) => Operand::R1,
        (false, _) => Operand::Nothing,
    }
}

// Operand 1; only ADD has SP.
fn to_E(byte: bool, decimal: bool, n: u8) -> Operand
    ensures { result ≡ to_E decimal (width_of byte) n }
{
    match (decimal, byte) {
        (true, true) => Operand::R0L,
        (true, false) => Operand::R0,
        (false, _) if n == 11 => Operand::SP,
        (false, _) => Operand::Nothing,
    }
}

// h = E, by n.
pub fn row_E(bs: &[u8], byte: bool, b: u8) -> Decoded
    ensures { answer_of result ≡ run_row (row_E (width_of byte) (b % 16)) bs.now }
{
    let n = b % 16;
    // DADD and the like
    let decimal = 4 <= n % 8;
    let face = Face {
        // (`as` and no conversion, here and below: that is a call, one step more in each proof.)
        opcode: OPCODES[n as usize],
        size: size_E(byte, decimal),
        width: answer::width_of(byte),
        op1: to_E(byte, decimal, n),
        ..NAMELESS
    };
    // an immediate is operand 0
    if set::has(0xF80F, n) {
        let s = numbers::immediate(bs, byte, BEGIN)?;
        let immediate = Face {
            op0: numbers::immediate_name(byte),
            ..face
        };
        return Ok(immediate.with(s));
    }
    let alone = Face {
        op0: from_E(byte, decimal),
        ..face
    };
    Ok(alone.with(BEGIN))
}

// LDCTX and STCTX: two bytes, then three.
pub fn load_context(bs: &[u8], byte: bool, opcode: Opcode) -> Decoded
    ensures { answer_of result ≡ run_row (context opcode (width_of byte)) bs.now }
{
    let s = numbers::disp_word(bs, BEGIN)?;
    let t = numbers::long20(bs, s)?;
    let face = Face {
        opcode,
        width: answer::width_of(byte),
        op0: Operand::Abs16,
        op1: Operand::Abs20,
        ..NAMELESS
    };
    Ok(face.with(t))
}
