// The condition that an opcode is, as 7E 2n reads it.
ghost use Rattle.std.specs.Prelude.{◌≡◌};
ghost use Rattle.laws.specs.Choice.{pick};
ghost use Rattle.encode_rules.specs.steps.Search.{cond_byte};
ghost use Rattle.encode.specs.steps.Faced as faced;

use record::Opcode;

// 0 for an opcode that is none. (No Option: `cond_byte` of encode_rules says 0 of these.)
#[tactic(auto, unfolding(encode_rules::specs::steps::Search::cond_byte, rows::specs::Codes::cond_of))]
pub(crate) fn byte_of(o: Opcode) -> u8
    ensures { result ≡ cond_byte o }
{
    match o {
        Opcode::BMEQ => 2,
        Opcode::BMGEU => 0,
        Opcode::BMGT => 0xFC,
        Opcode::BMGTU => 1,
        Opcode::BMLE => 4,
        Opcode::BMLEU => 0xF9,
        Opcode::BMLTU => 0xF8,
        Opcode::BMLT => 0xFE,
        Opcode::BMNO => 0xFD,
        Opcode::BMGE => 6,
        Opcode::BMN => 3,
        Opcode::BMNE => 0xFA,
        Opcode::BMO => 5,
        Opcode::BMPZ => 0xFB,
        _ => 0,
    }
}

// Whether a code reads a condition: 7E 2n does, no other.
pub(crate) fn is_read(a: u8, b: u8) -> bool
    ensures { pick result 1 0 ≡ faced.conditions a b }
{
    a == 0x7E && b / 16 == 2
}
