ghost use Rattle.std.specs.Prelude.{◌≡◌, List, ℕ, ◌/◌, ◌%◌};
ghost use Rattle.record.specs.Answer.{answer_of};
ghost use Rattle.rows.specs.RegisterList.{list, registers_in};
ghost use Rattle.rows.specs.Run.{run_row};
ghost use Rattle.decode_72.specs.steps.Added.{list_opcode};

use readers::answer;
use readers::answer::{Decoded, Face};
use record::{Opcode, Operand, Record, Size, Width};

// How many registers a list names.
#[tactic(auto, using(crate::proofs::Ones::eight_bits))]
fn registers_in(b: u8) -> u8
    ensures { result ≡ registers_in b }
{
    b.count_ones() as u8
}

fn list_opcode(a: u8) -> Opcode
    ensures { result ≡ list_opcode a }
{
    if a % 2 == 0 {
        Opcode::PUSHM
    } else {
        Opcode::POPM
    }
}

// PUSHM and POPM: the list is part of the code.
pub fn decode_list(a: u8, b: u8) -> Decoded
    ensures { (bs : List ℕ) → answer_of result ≡ run_row (list (list_opcode a) (b / 16) (b % 16)) bs }
{
    let face = Face {
        opcode: list_opcode(a),
        size: Size::None,
        width: Width::None,
        op0: Operand::RegList,
        op1: Operand::Nothing,
        marked: false,
    };
    Ok(Record {
        registers: registers_in(b),
        ..face.with(answer::begin(u32::from(b)))
    })
}
