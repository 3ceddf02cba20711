ghost use Rattle.std.specs.Prelude.{◌≡◌, ◌/◌, ◌%◌, eqb};
ghost use Rattle.record.specs.Answer.{answer_of};
ghost use Rattle.rows.specs.Pairs.{two};
ghost use Rattle.rows.specs.Run.{run_row};
ghost use Rattle.readers.specs.steps.Width.{width_of};
ghost use Rattle.decode_72.specs.steps.Added.{opcode_of};

use readers::answer::{Decoded, Face};
use readers::{answer, general};
use record::Opcode;

// By the first byte's eighth, from 80 on; 72 and 73 stand near the end. (NOP where no pair is, and no Option: `is_two` is asked before.)
const OPCODES: [Opcode; 16] = [
    Opcode::TST,
    Opcode::XOR,
    Opcode::AND,
    Opcode::OR,
    Opcode::ADD,
    Opcode::SUB,
    Opcode::ADC,
    Opcode::SBB,
    Opcode::CMP,
    Opcode::NOP,
    Opcode::NOP,
    Opcode::NOP,
    Opcode::NOP,
    Opcode::NOP,
    Opcode::MOV,
    Opcode::NOP,
];

fn opcode_of(a: u8) -> Opcode
    ensures { result ≡ opcode_of a }
{
    // (`as` and no conversion, here and below: that is a call, one step more in each proof.)
    OPCODES[(a / 8 % 16) as usize]
}

// Source and destination: the source's bytes are read first.
#[tactic(auto, using(readers::proofs::RowSteps::steps, readers::proofs::RowSteps::second_behind_general, readers::proofs::Nibble::named_high), unfolding(rows::specs::Run::run_row, rows::specs::Rows::row, rows::specs::Pairs::two))]
pub fn decode_two(bs: &[u8], a: u8, b: u8) -> Decoded
    ensures { answer_of result ≡ run_row (two (opcode_of a) (width_of (eqb (a % 2) 0)) (b / 16) (b % 16)) bs.now }
{
    let byte = a % 2 == 0;
    let s = general::general(bs, answer::BEGIN, b / 16)?;
    let t = general::general(bs, s, b % 16)?;
    let face = Face {
        opcode: opcode_of(a),
        size: answer::size_of(byte),
        width: answer::width_of(byte),
        op0: general::general_name(byte, b / 16),
        op1: general::general_name(byte, b),
        marked: false,
    };
    Ok(face.with(t))
}
