#![tactic(auto, using(readers::proofs::RowSteps::steps, readers::proofs::RowSteps::second_behind_general, readers::proofs::Nibble::named_high), unfolding(rows::specs::Run::run_row, rows::specs::Rows::row, rows::specs::Rows::row78))]

ghost use Rattle.std.specs.Prelude.{◌≡◌, ◌/◌, ◌%◌};
ghost use Rattle.record.specs.Answer.{answer_of};
ghost use Rattle.rows.specs.Rows.{row78};
ghost use Rattle.rows.specs.Run.{run_row};
ghost use Rattle.readers.specs.steps.Width.{width_of};

use readers::answer::{Decoded, Face, NAMELESS};
use readers::{answer, general, mul};
use record::Opcode;
use record::refusal::Refusal;

// MUL: the source is read before the destination is judged.
pub fn decode_op78(bs: &[u8], byte: bool, b: u8) -> Decoded
    ensures { answer_of result ≡ run_row (row78 (width_of byte) (b / 16) (b % 16)) bs.now }
{
    // (Judged first and refused behind the source's bytes: so what is not refused does not carry the reason past them.)
    if mul::bad_mul(byte, b % 16) {
        let s = general::general(bs, answer::BEGIN, b / 16)?;
        return answer::refuse_for(Refusal::InvalidOperand, s.taken);
    }
    let s = general::general(bs, answer::BEGIN, b / 16)?;
    let t = general::general(bs, s, b % 16)?;
    let face = Face {
        opcode: Opcode::MUL,
        width: answer::width_of(byte),
        op0: general::general_name(byte, b / 16),
        op1: general::general_name(byte, b),
        ..NAMELESS
    };
    Ok(face.with(t))
}
