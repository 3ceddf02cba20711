// The name of each number; a number too large names what the blank record holds (so From, no TryFrom). That is tested before the match, so that behind a
// caller's own test nothing is left of either: the number is the name. (Of a match with three arms the compiler makes choices, so the
// widths have a fourth.)
// Made by scripts/tables/make-names from the enums of crates/record/src/lib.rt.
ghost use Rattle.std.specs.Prelude.{◌≡◌};
ghost use Rattle.record.specs.Names.{opcode_at, size_at, width_at, operand_at};

use crate::{Opcode, Operand, Size, Width};

pub const LAST_OPCODE: u32 = 97;

pub const LAST_SIZE: u32 = 3;

pub const LAST_WIDTH: u32 = 2;

pub const LAST_OPERAND: u32 = 56;

impl From<u32> for Opcode {
    ghost from_gives = { λ n r. r ≡ opcode_at n };

    fn from(n: u32) -> Opcode {
        if LAST_OPCODE < n {
            return Opcode::NOP;
        }
        match n {
            0 => Opcode::NOP,
            1 => Opcode::ABS,
            2 => Opcode::ADC,
            3 => Opcode::ADCF,
            4 => Opcode::ADD,
            5 => Opcode::AND,
            6 => Opcode::BAND,
            7 => Opcode::BCLR,
            8 => Opcode::BMEQ,
            9 => Opcode::BMGEU,
            10 => Opcode::BMGT,
            11 => Opcode::BMGTU,
            12 => Opcode::BMLE,
            13 => Opcode::BMLEU,
            14 => Opcode::BMLTU,
            15 => Opcode::BMLT,
            16 => Opcode::BMNO,
            17 => Opcode::BMGE,
            18 => Opcode::BMN,
            19 => Opcode::BMNE,
            20 => Opcode::BMO,
            21 => Opcode::BMPZ,
            22 => Opcode::BNAND,
            23 => Opcode::BNOR,
            24 => Opcode::BNOT,
            25 => Opcode::BNTST,
            26 => Opcode::BNXOR,
            27 => Opcode::BOR,
            28 => Opcode::BSET,
            29 => Opcode::BTST,
            30 => Opcode::BTSTC,
            31 => Opcode::BTSTS,
            32 => Opcode::BXOR,
            33 => Opcode::CMP,
            34 => Opcode::DADC,
            35 => Opcode::DADD,
            36 => Opcode::DIV,
            37 => Opcode::DIVU,
            38 => Opcode::DIVX,
            39 => Opcode::DSBB,
            40 => Opcode::DSUB,
            41 => Opcode::ENTER,
            42 => Opcode::EXITD,
            43 => Opcode::EXTS,
            44 => Opcode::FCLR,
            45 => Opcode::FSET,
            46 => Opcode::GE,
            47 => Opcode::INT,
            48 => Opcode::JGE,
            49 => Opcode::JGT,
            50 => Opcode::JLE,
            51 => Opcode::JLT,
            52 => Opcode::JMPI,
            53 => Opcode::JNO,
            54 => Opcode::JO,
            55 => Opcode::JSRI,
            56 => Opcode::LDC,
            57 => Opcode::LDCTX,
            58 => Opcode::LDE,
            59 => Opcode::LDIPL,
            60 => Opcode::LT,
            61 => Opcode::MOV,
            62 => Opcode::MOVA,
            63 => Opcode::MOVHH,
            64 => Opcode::MOVHL,
            65 => Opcode::MOVLH,
            66 => Opcode::MOVLL,
            67 => Opcode::MUL,
            68 => Opcode::MULU,
            69 => Opcode::NEG,
            70 => Opcode::NO,
            71 => Opcode::NOT,
            72 => Opcode::OR,
            73 => Opcode::POP,
            74 => Opcode::POPC,
            75 => Opcode::POPM,
            76 => Opcode::PUSH,
            77 => Opcode::PUSHA,
            78 => Opcode::PUSHC,
            79 => Opcode::PUSHM,
            80 => Opcode::RMPA,
            81 => Opcode::ROLC,
            82 => Opcode::RORC,
            83 => Opcode::ROT,
            84 => Opcode::SBB,
            85 => Opcode::SHA,
            86 => Opcode::SHL,
            87 => Opcode::SMOVB,
            88 => Opcode::SMOVF,
            89 => Opcode::SSTR,
            90 => Opcode::STC,
            91 => Opcode::STCTX,
            92 => Opcode::STE,
            93 => Opcode::SUB,
            94 => Opcode::TST,
            95 => Opcode::WAIT,
            96 => Opcode::XCHG,
            _ => Opcode::XOR,
        }
    }
}

impl From<u32> for Size {
    ghost from_gives = { λ n r. r ≡ size_at n };

    fn from(n: u32) -> Size {
        if LAST_SIZE < n {
            return Size::None;
        }
        match n {
            0 => Size::None,
            1 => Size::B,
            2 => Size::W,
            _ => Size::L,
        }
    }
}

impl From<u32> for Width {
    ghost from_gives = { λ n r. r ≡ width_at n };

    fn from(n: u32) -> Width {
        if LAST_WIDTH < n {
            return Width::None;
        }
        match n {
            0 => Width::None,
            1 => Width::B,
            2 => Width::W,
            _ => Width::None,
        }
    }
}

impl From<u32> for Operand {
    ghost from_gives = { λ n r. r ≡ operand_at n };

    fn from(n: u32) -> Operand {
        if LAST_OPERAND < n {
            return Operand::Nothing;
        }
        match n {
            0 => Operand::Nothing,
            1 => Operand::Imm4,
            2 => Operand::Imm8,
            3 => Operand::Imm16,
            4 => Operand::R0L,
            5 => Operand::R0H,
            6 => Operand::R1L,
            7 => Operand::R1H,
            8 => Operand::R0,
            9 => Operand::R1,
            10 => Operand::R2,
            11 => Operand::R3,
            12 => Operand::R2R0,
            13 => Operand::R3R1,
            14 => Operand::A0,
            15 => Operand::A1,
            16 => Operand::A1A0,
            17 => Operand::Bit_R0,
            18 => Operand::Bit_R1,
            19 => Operand::Bit_R2,
            20 => Operand::Bit_R3,
            21 => Operand::Bit_A0,
            22 => Operand::Bit_A1,
            23 => Operand::Bit_Deref_A0,
            24 => Operand::Bit_Deref_A1,
            25 => Operand::Bit_Disp8_A0,
            26 => Operand::Bit_Disp8_A1,
            27 => Operand::Bit_Disp8_SB,
            28 => Operand::Bit_Disp8_FB,
            29 => Operand::Bit_Disp16_A0,
            30 => Operand::Bit_Disp16_A1,
            31 => Operand::Bit_Disp16_SB,
            32 => Operand::Bit_Abs16,
            33 => Operand::Disp8_A0,
            34 => Operand::Disp8_A1,
            35 => Operand::Disp8_SB,
            36 => Operand::Disp8_FB,
            37 => Operand::Disp8_SP,
            38 => Operand::Disp16_A0,
            39 => Operand::Disp16_A1,
            40 => Operand::Disp16_SB,
            41 => Operand::Disp20_A0,
            42 => Operand::Disp20_A1,
            43 => Operand::Deref_A0,
            44 => Operand::Deref_A1,
            45 => Operand::Deref_A1A0,
            46 => Operand::Abs16,
            47 => Operand::Abs20,
            48 => Operand::Disp8,
            49 => Operand::RegList,
            50 => Operand::INTBL,
            51 => Operand::INTBH,
            52 => Operand::FLG,
            53 => Operand::ISP,
            54 => Operand::SP,
            55 => Operand::SB,
            _ => Operand::FB,
        }
    }
}
