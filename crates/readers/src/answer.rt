ghost use Rattle.std.specs.Prelude.{◌≡◌, Ok, Err};
ghost use Rattle.record.specs.Answer.{answer_of};
ghost use Rattle.rows.specs.Rows.{size_of};
ghost use Rattle.rows.specs.Run.{accepted, begun, refusal};
ghost use Rattle.readers.specs.steps.Numbered.{numbered};
ghost use Rattle.readers.specs.steps.Width.{width_of};

use record::refusal::{Refusal, Refused};
use record::{Opcode, Operand, Record, Seen, Size, Width};

// What a decoding says: a record, whose length is the bytes taken, or why there is none.
pub type Decoded = Result<Record, Refused>;

// What a row names, whatever it reads.
#[derive(Clone, Copy)]
pub struct Face {
    pub opcode: Opcode,
    pub size: Size,
    pub width: Width,
    pub op0: Operand,
    pub op1: Operand,
    pub marked: bool,
}

// A row that names nothing: each row says what it has in place of this.
pub const NAMELESS: Face = Face {
    opcode: Opcode::NOP,
    size: Size::None,
    width: Width::None,
    op0: Operand::Nothing,
    op1: Operand::Nothing,
    marked: false,
};

impl Face {
    // The record of a row whose reads found this. (No From: it takes two values.)
    pub fn with(self, s: Seen) -> Record
        ensures { answer_of (Ok result) ≡ accepted self.opcode self.size self.width self.op0 self.op1 self.marked s }
    {
        Record {
            imm_wide: s.imm_wide,
            dispabs: s.dispabs,
            first: s.first,
            length: s.taken,
            opcode: self.opcode,
            size: self.size,
            width: self.width,
            op0: self.op0,
            op1: self.op1,
            op2: Operand::Nothing,
            marked: self.marked,
            dropped: s.dropped,
            parts: s.parts,
            registers: 0,
        }
    }
}

// An answer with its refusal as a number, 0 for none: for who has the number and no `Refusal`.
#[derive(Clone, Copy)]
pub struct Numbered {
    pub inst: Record,
    pub taken: usize,
    pub refusal: u8,
}

// A refusal by its number, whatever that is, the bytes taken and the blank record.
pub fn refuse(no: u8, taken: usize) -> Numbered
    ensures { numbered result ≡ refusal no taken }
{
    Numbered {
        inst: record::BLANK,
        taken,
        refusal: no,
    }
}

// A refusal, and the bytes taken.
pub fn refuse_for(why: Refusal, taken: usize) -> Decoded
    ensures { result ≡ Err (record { why = why; taken = taken }) }
{
    Err(Refused { why, taken })
}

// The width of an even first byte is B, of an odd one W. (A bool tells them apart, in all groups: `Width` has a third, and an enum is passed by
// its address.)
pub fn width_of(byte: bool) -> Width
    ensures { result ≡ width_of byte }
{
    if byte { Width::B } else { Width::W }
}

// The size that an opcode of that width carries.
pub fn size_of(byte: bool) -> Size
    ensures { result ≡ size_of (width_of byte) }
{
    if byte { Size::B } else { Size::W }
}

// What a row begins with: two bytes were taken.
pub const BEGIN: Seen = Seen {
    imm_wide: 0,
    dispabs: 0,
    first: 0,
    dropped: false,
    parts: record::NO_PARTS,
    taken: 2,
};

// The same where a number is part of the code.
pub fn begin(number: u32) -> Seen
    ensures { result ≡ begun number }
{
    Seen {
        imm_wide: number,
        ..BEGIN
    }
}
