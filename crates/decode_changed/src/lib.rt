// The rows that request A9 changes to the manual's: at which codes they stand, and what stands behind these, by the second byte b.

#![tactic(auto, using(readers::proofs::RowSteps::steps, readers::proofs::RowSteps::second_behind_general), unfolding(rows::specs::Run::run_row, rows::specs::Rows::row))]

pub mod asked; // whether a code has one
pub mod general; // those that read G(n)
pub mod within; // those whose number, if any, is part of the code

ghost use Rattle.std.specs.Prelude.{◌≡◌, ◌/◌, ◌%◌};
ghost use Rattle.record.specs.Answer.{answer_of};
ghost use Rattle.rows.specs.Run.{run_row};
ghost use Rattle.decode_changed.specs.steps.Rows.{row_7D, row_of};

use readers::answer::{Decoded, Face};
use record::{Opcode, Operand, Size, Width};

// 7D, by the high nibble: the word jumps, MULU and MUL, LDIPL, ADD, and conditions.
pub fn decode_7D(bs: &[u8], b: u8) -> Decoded
    ensures { answer_of result ≡ run_row (row_7D (b / 16) (b % 16)) bs.now }
{
    match b / 16 {
        4 | 5 => general::mul_immediate(bs, false, b),
        10 => within::load_level(b),
        11 => within::add_stack(b),
        13 => within::condition(b),
        _ => general::word_jump(bs, b),
    }
}

// One of these rows, where the code has one.
pub fn decode_changed(bs: &[u8], a: u8, b: u8) -> Decoded
    ensures { answer_of result ≡ run_row (row_of a (b / 16) (b % 16)) bs.now }
{
    match a {
        0x74 | 0x75 => general::to_stack(bs, a % 2 == 0, b),
        0x76 | 0x77 => general::alone(bs, a % 2 == 0, b),
        0x7A => general::load_control(bs, b),
        0x7C => general::mul_immediate(bs, true, b),
        0x7D => decode_7D(bs, b),
        _ => within::flag(b),
    }
}
