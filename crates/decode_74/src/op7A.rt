#![tactic(auto, using(readers::proofs::RowSteps::steps, readers::proofs::Nibble::named_high), unfolding(rows::specs::Run::run_row, rows::specs::Rows::row))]

ghost use Rattle.std.specs.Prelude.{◌≡◌, ◌/◌, ◌%◌};
ghost use Rattle.record.specs.Answer.{answer_of};
ghost use Rattle.rows.specs.Rows.{ldc, row_7A};
ghost use Rattle.rows.specs.Run.{run_row};

use crate::exchange;
use readers::answer::{Decoded, Face};
use readers::{answer, control, general};
use record::refusal::Refusal;
use record::{Opcode, Size, Width};

// LDC: G is read, then the control register judged.
fn load_control(bs: &[u8], b: u8) -> Decoded
    ensures { answer_of result ≡ run_row (ldc (b / 16 % 8) (b % 16)) bs.now }
{
    let s = general::general(bs, answer::BEGIN, b % 16)?;
    if b / 16 % 8 == 0 {
        return answer::refuse_for(Refusal::InvalidOperand, s.taken);
    }
    let face = Face {
        opcode: Opcode::LDC,
        size: Size::None,
        width: Width::B,
        op0: general::general_name(true, b),
        op1: control::control_name(b / 16),
        marked: true,
    };
    Ok(face.with(s))
}

pub fn decode_op7A(bs: &[u8], b: u8) -> Decoded
    ensures { answer_of result ≡ run_row (row_7A (b / 16) (b % 16)) bs.now }
{
    if 0x80 <= b {
        return load_control(bs, b);
    }
    if 0x40 <= b {
        return answer::refuse_for(Refusal::InvalidOperand, 2);
    }
    exchange::exchange(bs, true, b)
}
