// An answer as numbers, in the entries that a program passes in.
ghost use Rattle.std.specs.Prelude.{◌≡◌, ◌++◌, [], ◌∷◌};
ghost use Rattle.record.specs.Answer.{answer_of};
ghost use Rattle.m16c_decode.specs.Decoded.{numbers_of};
ghost use Rattle.m16c_decode.specs.steps.Filled.{Small, Filled, answer};

use readers::answer::Decoded;
use record::{Operand, Record};

// So many numbers are an answer.
pub(crate) const ENTRIES: usize = 20;

// A record's numbers, and how many bytes were taken.
#[tactic(auto, unfolding(crate::specs::Decoded::numbers_of))]
fn numbers_of(inst: Record, taken: usize) -> [u32; ENTRIES]
    requires { Small (answer inst taken) }
    ensures { result ≡ numbers_of (answer inst taken) }
{
    let parts = inst.parts;
    [
        taken as u32,
        u32::from(inst.opcode),
        u32::from(inst.size),
        u32::from(inst.width),
        u32::from(inst.op0),
        u32::from(inst.op1),
        u32::from(Operand::Nothing), // no row has a third operand
        inst.imm_wide,
        u32::from(inst.dispabs),
        u32::from(inst.first),
        inst.length as u32,
        u32::from(inst.marked),
        u32::from(inst.dropped),
        u32::from(parts.first.offset),
        u32::from(parts.first.width),
        u32::from(parts.dispabs.offset),
        u32::from(parts.dispabs.width),
        u32::from(parts.imm_wide.offset),
        u32::from(parts.imm_wide.width),
        u32::from(inst.registers),
    ]
}

// An answer's numbers, and its refusal, 0 for none.
pub(crate) fn fill(decoded: Decoded, out: &mut [u32; ENTRIES]) -> u32
    requires { Small (answer_of decoded) }
    ensures { Filled (answer_of decoded) result out.new }
{
    match decoded {
        Ok(inst) => {
            *out = numbers_of(inst, inst.length);
            0
        }
        Err(refused) => {
            *out = numbers_of(record::BLANK, refused.taken);
            u32::from(refused.why)
        }
    }
}
