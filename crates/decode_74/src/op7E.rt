ghost use Rattle.std.specs.Prelude.{◌≡◌, false, Ok, [], ◌∷◌, ◌/◌, ◌%◌};
ghost use Rattle.record.specs.declared.Opcode.TheVariants.{NOP};
ghost use Rattle.record.specs.Answer.{answer_of};
ghost use Rattle.record.specs.declared.Operand.TheVariants.{Nothing};
ghost use Rattle.record.specs.declared.Size.TheVariants as size;
ghost use Rattle.record.specs.declared.Width.TheVariants as width;
ghost use Rattle.rows.specs.Row.{cond};
ghost use Rattle.rows.specs.Rows.{row_7E};
ghost use Rattle.rows.specs.Run.{accepted, run, run_row};
ghost use Rattle.decode_74.specs.steps.Op7E.{bit_face};

use readers::answer::{Decoded, Face, NAMELESS};
use readers::{answer, bit};
use record::refusal::Refusal;
use record::{Opcode, Operand, Record, Seen, Size, Width};

// At 2 stands BMcnd, whose condition byte names it.
const OPCODES: [Opcode; 14] = [
    Opcode::BTSTC,
    Opcode::BTSTS,
    Opcode::NOP,
    Opcode::BNTST,
    Opcode::BAND,
    Opcode::BNAND,
    Opcode::BOR,
    Opcode::BNOR,
    Opcode::BCLR,
    Opcode::BSET,
    Opcode::BNOT,
    Opcode::BTST,
    Opcode::BXOR,
    Opcode::BNXOR,
];

// By the condition byte's low nibble: 00 to 06, and F8 to FE. (NOP stands where none is read: 07 and FF are refused before.)
const CONDITIONS: [Opcode; 16] = [
    Opcode::BMGEU,
    Opcode::BMGTU,
    Opcode::BMEQ,
    Opcode::BMN,
    Opcode::BMLE,
    Opcode::BMO,
    Opcode::BMGE,
    Opcode::NOP,
    Opcode::BMLTU,
    Opcode::BMLEU,
    Opcode::BMNE,
    Opcode::BMPZ,
    Opcode::BMGT,
    Opcode::BMNO,
    Opcode::BMLT,
    Opcode::NOP,
];

// A row of a bit has no size and no width.
fn bit_row(opcode: Opcode, name: Operand, s: Seen) -> Record
    ensures { answer_of (Ok result) ≡ accepted opcode size.None width.None name Nothing false s }
{
    let face = Face {
        opcode,
        op0: name,
        ..NAMELESS
    };
    face.with(s)
}

// The condition byte of BMcnd, and the record.
fn conditional(bs: &[u8], name: Operand, s: Seen) -> Decoded
    ensures { answer_of result ≡ run (cond ∷ []) bs.now (bit_face NOP name) s }
{
    let at = s.taken;
    if bs.len() <= at {
        return answer::refuse_for(Refusal::ExhaustedInput, bs.len());
    }
    let c = bs[at];
    let t = Seen { taken: at + 1, ..s };
    // (`as` and no conversion, here and below: that is a call, one step more in each proof.)
    let row = bit_row(CONDITIONS[(c % 16) as usize], name, t);
    if c < 0x07 {
        return Ok(row);
    }
    if c < 0xF8 {
        return answer::refuse_for(Refusal::InvalidOpcode, at + 1);
    }
    if c < 0xFF {
        return Ok(row);
    }
    answer::refuse_for(Refusal::InvalidOpcode, at + 1)
}

pub fn decode_op7E(bs: &[u8], b: u8) -> Decoded
    ensures { answer_of result ≡ run_row (row_7E (b / 16) (b % 16)) bs.now }
{
    let h = b / 16;
    if 14 <= h {
        return answer::refuse_for(Refusal::InvalidOpcode, 2);
    }
    let name = bit::bit_name(b);
    let s = bit::bit(bs, answer::BEGIN, b % 16)?;
    if h == 2 {
        return conditional(bs, name, s);
    }
    Ok(bit_row(OPCODES[h as usize], name, s))
}
