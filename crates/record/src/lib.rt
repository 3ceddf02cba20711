// What an instruction is, and what a decoder answers: names, numbers and nothing else.
// Names are spelled as in the Rust and in document 01. `NOP`, `None` and `Nothing` stand first: they are what the blank record holds.
// (They are names and no Options, since document 01 has them among the others and C is told their number, 0.)

#![tactic(auto)]

pub mod numbers; // the number of each name
pub mod names; // the name of each number
pub mod fields; // where the number of each operand is
pub mod signed; // the number of each operand as it is counted
pub mod refusal; // why a function refuses

#[derive(Clone, Copy, PartialEq, Eq)]
pub enum Opcode {
    NOP,
    ABS,
    ADC,
    ADCF,
    ADD,
    AND,
    BAND,
    BCLR,
    BMEQ,
    BMGEU,
    BMGT,
    BMGTU,
    BMLE,
    BMLEU,
    BMLTU,
    BMLT,
    BMNO,
    BMGE,
    BMN,
    BMNE,
    BMO,
    BMPZ,
    BNAND,
    BNOR,
    BNOT,
    BNTST,
    BNXOR,
    BOR,
    BSET,
    BTST,
    BTSTC,
    BTSTS,
    BXOR,
    CMP,
    DADC,
    DADD,
    DIV,
    DIVU,
    DIVX,
    DSBB,
    DSUB,
    ENTER,
    EXITD,
    EXTS,
    FCLR,
    FSET,
    GE,
    INT,
    JGE,
    JGT,
    JLE,
    JLT,
    JMPI,
    JNO,
    JO,
    JSRI,
    LDC,
    LDCTX,
    LDE,
    LDIPL,
    LT,
    MOV,
    MOVA,
    MOVHH,
    MOVHL,
    MOVLH,
    MOVLL,
    MUL,
    MULU,
    NEG,
    NO,
    NOT,
    OR,
    POP,
    POPC,
    POPM,
    PUSH,
    PUSHA,
    PUSHC,
    PUSHM,
    RMPA,
    ROLC,
    RORC,
    ROT,
    SBB,
    SHA,
    SHL,
    SMOVB,
    SMOVF,
    SSTR,
    STC,
    STCTX,
    STE,
    SUB,
    TST,
    WAIT,
    XCHG,
    XOR,
}

// The size that an opcode carries, `.B`, `.W` or `.L` in the listing.
#[derive(Clone, Copy, PartialEq, Eq)]
pub enum Size {
    None,
    B,
    W,
    L,
}

// The width that decoding starts with, by the first byte.
#[derive(Clone, Copy, PartialEq, Eq)]
pub enum Width {
    None,
    B,
    W,
}

#[derive(Clone, Copy, PartialEq, Eq)]
pub enum Operand {
    Nothing,
    Imm4,
    Imm8,
    Imm16,
    R0L,
    R0H,
    R1L,
    R1H,
    R0,
    R1,
    R2,
    R3,
    R2R0,
    R3R1,
    A0,
    A1,
    A1A0,
    Bit_R0,
    Bit_R1,
    Bit_R2,
    Bit_R3,
    Bit_A0,
    Bit_A1,
    Bit_Deref_A0,
    Bit_Deref_A1,
    Bit_Disp8_A0,
    Bit_Disp8_A1,
    Bit_Disp8_SB,
    Bit_Disp8_FB,
    Bit_Disp16_A0,
    Bit_Disp16_A1,
    Bit_Disp16_SB,
    Bit_Abs16,
    Disp8_A0,
    Disp8_A1,
    Disp8_SB,
    Disp8_FB,
    Disp8_SP,
    Disp16_A0,
    Disp16_A1,
    Disp16_SB,
    Disp20_A0,
    Disp20_A1,
    Deref_A0,
    Deref_A1,
    Deref_A1A0,
    Abs16,
    Abs20,
    Disp8,
    RegList,
    INTBL,
    INTBH,
    FLG,
    ISP,
    SP,
    SB,
    FB,
}

// Where a number stands in the bytes of an instruction, and how many bytes it has there. Both are 0 if none behind the second was read for it.
#[derive(Clone, Copy, PartialEq, Eq)]
pub struct Part {
    pub offset: u8,
    pub width: u8,
}

// The part of each number that a record holds.
#[derive(Clone, Copy, PartialEq, Eq)]
pub struct Parts {
    pub first: Part,
    pub dispabs: Part,
    pub imm_wide: Part,
}

// The Rust's `operands: [OperandSpec; 3]` are three fields. (`op2`, which no row has, and `length` stand first, where a refusal's `why` and `taken`
// lie in a decoding's result: so what is not asked for of a record is not made.)
#[derive(Clone, Copy)]
pub struct Record {
    pub op2: Operand,
    pub length: usize,
    pub imm_wide: u32,
    pub dispabs: u16,
    // The earlier of two displacements; `dispabs` has the later.
    pub first: u16,
    pub opcode: Opcode,
    pub size: Size,
    pub width: Width,
    pub op0: Operand,
    pub op1: Operand,
    // How many registers the list of PUSHM or POPM names; 0 in every other record.
    pub registers: u8,
    // The row reads this code otherwise than the maker's manual, or document 01 stars it.
    pub marked: bool,
    // A 20-bit number was read from three bytes of which the upper nibble, which is not kept, was not zero.
    pub dropped: bool,
    pub parts: Parts,
}

// No byte was read for it. (No Option: C is told 0 and 0 then, as `no_part` of record/specs/Parts says.)
pub const NO_PART: Part = Part {
    offset: 0,
    width: 0,
};

// No byte was read for any number.
pub const NO_PARTS: Parts = Parts {
    first: NO_PART,
    dispabs: NO_PART,
    imm_wide: NO_PART,
};

// The record that C is told of bytes that make no instruction.
pub const BLANK: Record = Record {
    imm_wide: 0,
    dispabs: 0,
    first: 0,
    length: 0,
    opcode: Opcode::NOP,
    size: Size::None,
    width: Width::None,
    op0: Operand::Nothing,
    op1: Operand::Nothing,
    op2: Operand::Nothing,
    marked: false,
    dropped: false,
    parts: NO_PARTS,
    registers: 0,
};

// All that counts of a record: two records are the same instruction if these agree.
#[derive(Clone, Copy)]
pub struct Key {
    pub opcode: Opcode,
    pub size: Size,
    pub width: Width,
    pub base0: Operand,
    pub base1: Operand,
    pub base2: Operand,
    pub number0: u32,
    pub number1: u32,
    pub number2: u32,
}

// What a row's reads pass on from one to the next: whether imm_wide lost bits, the bytes taken, the numbers read so far, and where these stand.
// (The first two lie where a refusal's do, as in `Record`.)
#[derive(Clone, Copy)]
pub struct Seen {
    pub dropped: bool,
    pub taken: usize,
    pub imm_wide: u32,
    pub dispabs: u16,
    pub first: u16,
    pub parts: Parts,
}
