// Names as the listing prints them, a space before each. A text is packed: its first character in the lowest byte of a number.
// Made by scripts/tables/make-names from the enums of crates/record/src/lib.rt.
ghost use Rattle.std.specs.Prelude.{◌≡◌};
ghost use Rattle.line.specs.Line.{opcode_text, shown};
ghost use Rattle.line.specs.steps.Packed.{pack, first_eight, after_eight};

use record::{Opcode, Operand};

pub fn opcode_word(x: Opcode) -> u64
    ensures { result ≡ pack (opcode_text x) }
{
    match x {
        Opcode::NOP => 0x504F4E20, // NOP
        Opcode::ABS => 0x53424120, // ABS
        Opcode::ADC => 0x43444120, // ADC
        Opcode::ADCF => 0x4643444120, // ADCF
        Opcode::ADD => 0x44444120, // ADD
        Opcode::AND => 0x444E4120, // AND
        Opcode::BAND => 0x444E414220, // BAND
        Opcode::BCLR => 0x524C434220, // BCLR
        Opcode::BMEQ => 0x51454D4220, // BMEQ
        Opcode::BMGEU => 0x5545474D4220, // BMGEU
        Opcode::BMGT => 0x54474D4220, // BMGT
        Opcode::BMGTU => 0x5554474D4220, // BMGTU
        Opcode::BMLE => 0x454C4D4220, // BMLE
        Opcode::BMLEU => 0x55454C4D4220, // BMLEU
        Opcode::BMLTU => 0x55544C4D4220, // BMLTU
        Opcode::BMLT => 0x544C4D4220, // BMLT
        Opcode::BMNO => 0x4F4E4D4220, // BMNO
        Opcode::BMGE => 0x45474D4220, // BMGE
        Opcode::BMN => 0x4E4D4220, // BMN
        Opcode::BMNE => 0x454E4D4220, // BMNE
        Opcode::BMO => 0x4F4D4220, // BMO
        Opcode::BMPZ => 0x5A504D4220, // BMPZ
        Opcode::BNAND => 0x444E414E4220, // BNAND
        Opcode::BNOR => 0x524F4E4220, // BNOR
        Opcode::BNOT => 0x544F4E4220, // BNOT
        Opcode::BNTST => 0x5453544E4220, // BNTST
        Opcode::BNXOR => 0x524F584E4220, // BNXOR
        Opcode::BOR => 0x524F4220, // BOR
        Opcode::BSET => 0x5445534220, // BSET
        Opcode::BTST => 0x5453544220, // BTST
        Opcode::BTSTC => 0x435453544220, // BTSTC
        Opcode::BTSTS => 0x535453544220, // BTSTS
        Opcode::BXOR => 0x524F584220, // BXOR
        Opcode::CMP => 0x504D4320, // CMP
        Opcode::DADC => 0x4344414420, // DADC
        Opcode::DADD => 0x4444414420, // DADD
        Opcode::DIV => 0x56494420, // DIV
        Opcode::DIVU => 0x5556494420, // DIVU
        Opcode::DIVX => 0x5856494420, // DIVX
        Opcode::DSBB => 0x4242534420, // DSBB
        Opcode::DSUB => 0x4255534420, // DSUB
        Opcode::ENTER => 0x5245544E4520, // ENTER
        Opcode::EXITD => 0x445449584520, // EXITD
        Opcode::EXTS => 0x5354584520, // EXTS
        Opcode::FCLR => 0x524C434620, // FCLR
        Opcode::FSET => 0x5445534620, // FSET
        Opcode::GE => 0x454720, // GE
        Opcode::INT => 0x544E4920, // INT
        Opcode::JGE => 0x45474A20, // JGE
        Opcode::JGT => 0x54474A20, // JGT
        Opcode::JLE => 0x454C4A20, // JLE
        Opcode::JLT => 0x544C4A20, // JLT
        Opcode::JMPI => 0x49504D4A20, // JMPI
        Opcode::JNO => 0x4F4E4A20, // JNO
        Opcode::JO => 0x4F4A20, // JO
        Opcode::JSRI => 0x4952534A20, // JSRI
        Opcode::LDC => 0x43444C20, // LDC
        Opcode::LDCTX => 0x585443444C20, // LDCTX
        Opcode::LDE => 0x45444C20, // LDE
        Opcode::LDIPL => 0x4C5049444C20, // LDIPL
        Opcode::LT => 0x544C20, // LT
        Opcode::MOV => 0x564F4D20, // MOV
        Opcode::MOVA => 0x41564F4D20, // MOVA
        Opcode::MOVHH => 0x4848564F4D20, // MOVHH
        Opcode::MOVHL => 0x4C48564F4D20, // MOVHL
        Opcode::MOVLH => 0x484C564F4D20, // MOVLH
        Opcode::MOVLL => 0x4C4C564F4D20, // MOVLL
        Opcode::MUL => 0x4C554D20, // MUL
        Opcode::MULU => 0x554C554D20, // MULU
        Opcode::NEG => 0x47454E20, // NEG
        Opcode::NO => 0x4F4E20, // NO
        Opcode::NOT => 0x544F4E20, // NOT
        Opcode::OR => 0x524F20, // OR
        Opcode::POP => 0x504F5020, // POP
        Opcode::POPC => 0x43504F5020, // POPC
        Opcode::POPM => 0x4D504F5020, // POPM
        Opcode::PUSH => 0x4853555020, // PUSH
        Opcode::PUSHA => 0x414853555020, // PUSHA
        Opcode::PUSHC => 0x434853555020, // PUSHC
        Opcode::PUSHM => 0x4D4853555020, // PUSHM
        Opcode::RMPA => 0x41504D5220, // RMPA
        Opcode::ROLC => 0x434C4F5220, // ROLC
        Opcode::RORC => 0x43524F5220, // RORC
        Opcode::ROT => 0x544F5220, // ROT
        Opcode::SBB => 0x42425320, // SBB
        Opcode::SHA => 0x41485320, // SHA
        Opcode::SHL => 0x4C485320, // SHL
        Opcode::SMOVB => 0x42564F4D5320, // SMOVB
        Opcode::SMOVF => 0x46564F4D5320, // SMOVF
        Opcode::SSTR => 0x5254535320, // SSTR
        Opcode::STC => 0x43545320, // STC
        Opcode::STCTX => 0x585443545320, // STCTX
        Opcode::STE => 0x45545320, // STE
        Opcode::SUB => 0x42555320, // SUB
        Opcode::TST => 0x54535420, // TST
        Opcode::WAIT => 0x5449415720, // WAIT
        Opcode::XCHG => 0x4748435820, // XCHG
        Opcode::XOR => 0x524F5820, // XOR
    }
}

// Eight characters, and the others.
#[derive(Clone, Copy)]
pub struct Shown(pub u64, pub u64);

pub fn operand_shown(x: Operand) -> Shown
    ensures { (result.0 ≡ pack (first_eight (shown x))) × (result.1 ≡ pack (after_eight (shown x))) }
{
    match x {
        Operand::Nothing => Shown(0, 0),
        Operand::Imm4 => Shown(0x346D6D4920, 0), // Imm4
        Operand::Imm8 => Shown(0x386D6D4920, 0), // Imm8
        Operand::Imm16 => Shown(0x36316D6D4920, 0), // Imm16
        Operand::R0L => Shown(0x4C305220, 0), // R0L
        Operand::R0H => Shown(0x48305220, 0), // R0H
        Operand::R1L => Shown(0x4C315220, 0), // R1L
        Operand::R1H => Shown(0x48315220, 0), // R1H
        Operand::R0 => Shown(0x305220, 0), // R0
        Operand::R1 => Shown(0x315220, 0), // R1
        Operand::R2 => Shown(0x325220, 0), // R2
        Operand::R3 => Shown(0x335220, 0), // R3
        Operand::R2R0 => Shown(0x3052325220, 0), // R2R0
        Operand::R3R1 => Shown(0x3152335220, 0), // R3R1
        Operand::A0 => Shown(0x304120, 0), // A0
        Operand::A1 => Shown(0x314120, 0), // A1
        Operand::A1A0 => Shown(0x3041314120, 0), // A1A0
        Operand::Bit_R0 => Shown(0x30525F74694220, 0), // Bit_R0
        Operand::Bit_R1 => Shown(0x31525F74694220, 0), // Bit_R1
        Operand::Bit_R2 => Shown(0x32525F74694220, 0), // Bit_R2
        Operand::Bit_R3 => Shown(0x33525F74694220, 0), // Bit_R3
        Operand::Bit_A0 => Shown(0x30415F74694220, 0), // Bit_A0
        Operand::Bit_A1 => Shown(0x31415F74694220, 0), // Bit_A1
        Operand::Bit_Deref_A0 => Shown(0x7265445F74694220, 0x30415F6665), // Bit_Der + ef_A0
        Operand::Bit_Deref_A1 => Shown(0x7265445F74694220, 0x31415F6665), // Bit_Der + ef_A1
        Operand::Bit_Disp8_A0 => Shown(0x7369445F74694220, 0x30415F3870), // Bit_Dis + p8_A0
        Operand::Bit_Disp8_A1 => Shown(0x7369445F74694220, 0x31415F3870), // Bit_Dis + p8_A1
        Operand::Bit_Disp8_SB => Shown(0x7369445F74694220, 0x42535F3870), // Bit_Dis + p8_SB
        Operand::Bit_Disp8_FB => Shown(0x7369445F74694220, 0x42465F3870), // Bit_Dis + p8_FB
        Operand::Bit_Disp16_A0 => Shown(0x7369445F74694220, 0x30415F363170), // Bit_Dis + p16_A0
        Operand::Bit_Disp16_A1 => Shown(0x7369445F74694220, 0x31415F363170), // Bit_Dis + p16_A1
        Operand::Bit_Disp16_SB => Shown(0x7369445F74694220, 0x42535F363170), // Bit_Dis + p16_SB
        Operand::Bit_Abs16 => Shown(0x7362415F74694220, 0x3631), // Bit_Abs + 16
        Operand::Disp8_A0 => Shown(0x415F387073694420, 0x30), // Disp8_A + 0
        Operand::Disp8_A1 => Shown(0x415F387073694420, 0x31), // Disp8_A + 1
        Operand::Disp8_SB => Shown(0x535F387073694420, 0x42), // Disp8_S + B
        Operand::Disp8_FB => Shown(0x465F387073694420, 0x42), // Disp8_F + B
        Operand::Disp8_SP => Shown(0x535F387073694420, 0x50), // Disp8_S + P
        Operand::Disp16_A0 => Shown(0x5F36317073694420, 0x3041), // Disp16_ + A0
        Operand::Disp16_A1 => Shown(0x5F36317073694420, 0x3141), // Disp16_ + A1
        Operand::Disp16_SB => Shown(0x5F36317073694420, 0x4253), // Disp16_ + SB
        Operand::Disp20_A0 => Shown(0x5F30327073694420, 0x3041), // Disp20_ + A0
        Operand::Disp20_A1 => Shown(0x5F30327073694420, 0x3141), // Disp20_ + A1
        Operand::Deref_A0 => Shown(0x415F666572654420, 0x30), // Deref_A + 0
        Operand::Deref_A1 => Shown(0x415F666572654420, 0x31), // Deref_A + 1
        Operand::Deref_A1A0 => Shown(0x415F666572654420, 0x304131), // Deref_A + 1A0
        Operand::Abs16 => Shown(0x363173624120, 0), // Abs16
        Operand::Abs20 => Shown(0x303273624120, 0), // Abs20
        Operand::Disp8 => Shown(0x387073694420, 0), // Disp8
        Operand::RegList => Shown(0x7473694C67655220, 0), // RegList
        Operand::INTBL => Shown(0x4C42544E4920, 0), // INTBL
        Operand::INTBH => Shown(0x4842544E4920, 0), // INTBH
        Operand::FLG => Shown(0x474C4620, 0), // FLG
        Operand::ISP => Shown(0x50534920, 0), // ISP
        Operand::SP => Shown(0x505320, 0), // SP
        Operand::SB => Shown(0x425320, 0), // SB
        Operand::FB => Shown(0x424620, 0), // FB
    }
}
