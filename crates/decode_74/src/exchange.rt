#![tactic(auto, using(readers::proofs::RowSteps::steps, readers::proofs::Nibble::named_high), unfolding(rows::specs::Run::run_row, rows::specs::Rows::row))]

ghost use Rattle.std.specs.Prelude.{◌≡◌, ◌/◌, ◌%◌};
ghost use Rattle.record.specs.Answer.{answer_of};
ghost use Rattle.rows.specs.Rows.{xchg};
ghost use Rattle.rows.specs.Run.{run_row};
ghost use Rattle.readers.specs.steps.Width.{width_of};

use readers::answer::{Decoded, Face, NAMELESS};
use readers::{answer, general};
use record::Opcode;

// XCHG: the register by the second byte's high nibble, G by its low one.
pub fn exchange(bs: &[u8], byte: bool, b: u8) -> Decoded
    ensures { answer_of result ≡ run_row (xchg (width_of byte) (b / 16) (b % 16)) bs.now }
{
    let s = general::general(bs, answer::BEGIN, b % 16)?;
    let face = Face {
        opcode: Opcode::XCHG,
        size: answer::size_of(byte),
        width: answer::width_of(byte),
        op0: general::general_name(byte, b / 16),
        op1: general::general_name(byte, b),
        ..NAMELESS
    };
    Ok(face.with(s))
}
