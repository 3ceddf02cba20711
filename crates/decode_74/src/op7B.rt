#![tactic(auto, using(readers::proofs::RowSteps::steps, readers::proofs::Nibble::named_high), unfolding(rows::specs::Run::run_row, rows::specs::Rows::row))]

ghost use Rattle.std.specs.Prelude.{◌≡◌, ◌/◌, ◌%◌};
ghost use Rattle.record.specs.Answer.{answer_of};
ghost use Rattle.rows.specs.Rows.{stc, row_7B};
ghost use Rattle.rows.specs.Run.{run_row};

use crate::exchange;
use readers::answer::{Decoded, Face, NAMELESS};
use readers::{answer, control, general};
use record::refusal::Refusal;
use record::{Opcode, Size, Width};

// STC: the control register is judged, then G read. (LDC of 7A reads first, so the two are not one: a refusal takes other bytes.)
fn store_control(bs: &[u8], b: u8) -> Decoded
    ensures { answer_of result ≡ run_row (stc (b / 16 % 8) (b % 16)) bs.now }
{
    if b / 16 % 8 == 0 {
        return answer::refuse_for(Refusal::InvalidOperand, 2);
    }
    let s = general::general(bs, answer::BEGIN, b % 16)?;
    let face = Face {
        opcode: Opcode::STC,
        width: Width::W,
        op0: general::general_name(false, b),
        op1: control::control_name(b / 16),
        ..NAMELESS
    };
    Ok(face.with(s))
}

// (As 7A but for width and control row: one function for both would ask its caller's width again in each arm.)
pub fn decode_op7B(bs: &[u8], b: u8) -> Decoded
    ensures { answer_of result ≡ run_row (row_7B (b / 16) (b % 16)) bs.now }
{
    if 0x80 <= b {
        return store_control(bs, b);
    }
    if 0x40 <= b {
        return answer::refuse_for(Refusal::InvalidOperand, 2);
    }
    exchange::exchange(bs, false, b)
}
