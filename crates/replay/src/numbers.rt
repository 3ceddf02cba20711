// An answer in numbers: those that a line of the list holds, and those of what the decoder says. (The refusal too: a line may hold one that
// there is none of, 8 to F.)
ghost use Rattle.std.specs.Prelude.{◌≡◌};
ghost use Rattle.record.specs.Answer.{answer_of};
ghost use Rattle.replay.specs.Numbers.{numbers_in, numbers_of};

use crate::form::Line;
use crate::hex;
use readers::answer::Decoded;

#[derive(Clone, Copy, PartialEq, Eq)]
pub struct Numbers {
    pub refusal: u32,
    pub taken: usize,
    pub opcode: u32,
    pub size: u32,
    pub op0: u32,
    pub op1: u32,
    pub op2: u32,
    pub imm_wide: u32,
    pub dispabs: u16,
    pub length: usize,
}

pub(crate) fn numbers_in(line: &Line) -> Numbers
    ensures { result ≡ numbers_in line.now }
{
    Numbers {
        refusal: u32::from(hex::digit_at(line, 19)),
        taken: usize::from(hex::digit_at(line, 21)),
        opcode: u32::from(hex::byte_at(line, 23)),
        size: u32::from(hex::digit_at(line, 25)),
        op0: u32::from(hex::byte_at(line, 26)),
        op1: u32::from(hex::byte_at(line, 28)),
        op2: u32::from(hex::byte_at(line, 30)),
        imm_wide: hex::long_at(line, 33),
        dispabs: hex::word_at(line, 42),
        length: usize::from(hex::digit_at(line, 47)),
    }
}

// Of a refusal, those of the blank record.
impl From<Decoded> for Numbers {
    ghost from_gives = { λ x r. r ≡ numbers_of (answer_of x) };

    fn from(x: Decoded) -> Numbers {
        let (refusal, taken, inst) = match x {
            Ok(r) => (0, r.length, r),
            Err(e) => (u32::from(e.why), e.taken, record::BLANK),
        };
        Numbers {
            refusal,
            taken,
            opcode: u32::from(inst.opcode),
            size: u32::from(inst.size),
            op0: u32::from(inst.op0),
            op1: u32::from(inst.op1),
            op2: u32::from(inst.op2),
            imm_wide: inst.imm_wide,
            dispabs: inst.dispabs,
            length: inst.length,
        }
    }
}
