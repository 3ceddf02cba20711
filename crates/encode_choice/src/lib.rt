// The direct choice of a code that encodes a record: one clause an opcode.

#![tactic(auto)]

pub mod names; // what a name is, by its number
pub mod asks; // what the choice asks of a key
pub mod shapes; // codes that several opcodes have in common
pub mod single; // codes that one opcode has
pub mod forms; // which size and names go with an opcode
mod sets; // names as bits
pub mod name_sets; // the code of each name, the form of each opcode, the sets of each form

ghost use Rattle.std.specs.Prelude.{◌≡◌};
ghost use Rattle.encode_choice.specs.steps.Choose as choice;
ghost use Rattle.encode_choice.specs.steps.Choose.{choose_by};
ghost use Rattle.encode_choice.specs.steps.Coded.{coded};

use record::{Opcode, Operand, Size, Width};

// What is asked of a key beside its opcode: size and width, the names of the row that would encode it in the fewest bytes, and a
// number that is part of the code.
#[derive(Clone, Copy)]
pub struct Asked {
    pub size: Size,
    pub width: Width,
    pub op0: Operand,
    pub op1: Operand,
    pub number: u32,
}

// The two bytes of a code.
#[derive(Clone, Copy)]
pub struct Code {
    pub first: u8,
    pub second: u64,
}

#[tactic(auto, unfolding(crate::specs::steps::Choose::choose_by))]
fn choose_by(o: Opcode, q: Asked) -> Option<Code>
    ensures { result ≡ coded (choose_by o q) }
{
    match o {
        Opcode::ABS => shapes::unary(0x76, 0xF, q),
        Opcode::ADC => shapes::arithmetic(0x76, 6, 0xB0, q),
        Opcode::ADD => single::add(q),
        Opcode::AND => shapes::arithmetic(0x76, 2, 0x90, q),
        Opcode::BAND => shapes::bit(4, q),
        Opcode::BCLR => shapes::bit(8, q),
        Opcode::BMEQ => shapes::condition(2, q),
        Opcode::BMGEU => shapes::condition(0, q),
        Opcode::BMGT => shapes::condition(0xC, q),
        Opcode::BMGTU => shapes::condition(1, q),
        Opcode::BMLE => shapes::condition(8, q),
        Opcode::BMLEU => shapes::condition(5, q),
        Opcode::BMLTU => shapes::condition(4, q),
        Opcode::BMLT => shapes::bit(2, q),
        Opcode::BMNO => shapes::bit(2, q),
        Opcode::BMGE => shapes::bit(2, q),
        Opcode::BMN => shapes::condition(3, q),
        Opcode::BMNE => shapes::condition(6, q),
        Opcode::BMO => shapes::condition(9, q),
        Opcode::BMPZ => shapes::condition(7, q),
        Opcode::BNAND => shapes::bit(5, q),
        Opcode::BNOR => shapes::bit(7, q),
        Opcode::BNOT => shapes::bit(0xA, q),
        Opcode::BNTST => shapes::bit(3, q),
        Opcode::BNXOR => shapes::bit(0xD, q),
        Opcode::BOR => shapes::bit(6, q),
        Opcode::BSET => shapes::bit(9, q),
        Opcode::BTST => shapes::bit(0xB, q),
        Opcode::BTSTC => shapes::bit(0, q),
        Opcode::BTSTS => shapes::bit(1, q),
        Opcode::BXOR => shapes::bit(0xC, q),
        Opcode::CMP => shapes::arithmetic(0x76, 8, 0xC0, q),
        Opcode::DADC => shapes::decimal(2, q),
        Opcode::DADD => shapes::decimal(0, q),
        Opcode::DIV => shapes::imm_or_unary(0xE1, 0x76, 0xD, q),
        Opcode::DIVU => shapes::only(0x7C, 0xE0, q),
        Opcode::DIVX => shapes::only(0x7C, 0xE3, q),
        Opcode::DSBB => shapes::decimal(3, q),
        Opcode::DSUB => shapes::decimal(1, q),
        Opcode::ENTER => single::fixed(0x7C, 0xF2),
        Opcode::EXITD => single::fixed(0x7D, 0xF2),
        Opcode::EXTS => single::exts(q),
        Opcode::INT => single::int(q),
        Opcode::JGE => single::fixed(0x7D, 0xCA),
        Opcode::JGT => single::fixed(0x7D, 0xCC),
        Opcode::JLE => single::fixed(0x7D, 0xC8),
        Opcode::JLT => single::fixed(0x7D, 0xCE),
        Opcode::JMPI => single::jump(0, q),
        Opcode::JNO => single::fixed(0x7D, 0xCD),
        Opcode::JO => single::fixed(0x7D, 0xC9),
        Opcode::JSRI => single::jump(0x10, q),
        Opcode::LDC => single::ldc(q),
        Opcode::LDCTX => single::fixed(0x7C, 0xF0),
        Opcode::LDE => single::lde(q),
        Opcode::MOV => single::mov(q),
        Opcode::MOVA => single::mova(q),
        Opcode::MOVHH => shapes::half(3, q),
        Opcode::MOVHL => shapes::half(2, q),
        Opcode::MOVLH => shapes::half(1, q),
        Opcode::MOVLL => shapes::half(0, q),
        Opcode::MUL => shapes::twice(0x78, q),
        Opcode::NEG => shapes::unary(0x74, 5, q),
        Opcode::NOT => shapes::unary(0x74, 7, q),
        Opcode::OR => shapes::arithmetic(0x76, 3, 0x98, q),
        Opcode::POP => shapes::unary(0x74, 0xD, q),
        Opcode::POPC => single::control(3, q),
        Opcode::POPM => single::list(0xED, q),
        Opcode::PUSH => shapes::imm_or_unary(0xE2, 0x74, 4, q),
        Opcode::PUSHA => single::pusha(q),
        Opcode::PUSHC => single::control(2, q),
        Opcode::PUSHM => single::list(0xEC, q),
        Opcode::RMPA => shapes::only(0x7C, 0xF1, q),
        Opcode::ROLC => shapes::unary(0x76, 0xA, q),
        Opcode::RORC => shapes::unary(0x76, 0xB, q),
        Opcode::ROT => shapes::binary(0x74, 6, q),
        Opcode::SBB => shapes::arithmetic(0x76, 7, 0xB8, q),
        Opcode::SHA => shapes::shift(0xF, 2, q),
        Opcode::SHL => shapes::shift(0xE, 0, q),
        Opcode::SMOVB => shapes::only(0x7C, 0xE9, q),
        Opcode::SMOVF => shapes::only(0x7C, 0xE8, q),
        Opcode::SSTR => shapes::only(0x7C, 0xEA, q),
        Opcode::STC => single::stc(q),
        Opcode::STCTX => single::fixed(0x7D, 0xF0),
        Opcode::STE => single::ste(q),
        Opcode::SUB => shapes::arithmetic(0x76, 5, 0xA8, q),
        Opcode::TST => shapes::arithmetic(0x76, 0, 0x80, q),
        Opcode::WAIT => single::fixed(0x7D, 0xF3),
        Opcode::XCHG => shapes::twice(0x7A, q),
        Opcode::XOR => shapes::arithmetic(0x76, 1, 0x88, q),
        _ => None,
    }
}

// The code for what is asked, if these are names that the opcode has in an unmarked row.
#[tactic(auto, unfolding(crate::specs::steps::Choose::choose_named))]
pub fn choose(o: Opcode, q: Asked) -> Option<Code>
    ensures { result ≡ coded (choice.choose_named o q) }
{
    if forms::goes_with(o, q) {
        return choose_by(o, q);
    }
    None
}
