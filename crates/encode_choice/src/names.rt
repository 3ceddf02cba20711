// What a name is.
ghost use Rattle.std.specs.Prelude.{◌≡◌};
ghost use Rattle.record.specs.Same.{field_of};
ghost use Rattle.encode_choice.specs.steps.Coarse.{whole};
ghost use Rattle.encode_choice.specs.steps.Coded.{is_wide};

use crate::sets;
use record::{Operand, Width};

// Imm4, Imm8 and Imm16; Disp20_A0 and Disp20_A1; Abs20, Disp8 and RegList: each by the bit of its number.
const WIDE: u64 = (0b111 << 1) + (0b11 << 41) + (0b111 << 47);

// Its number is in imm_wide.
pub fn is_wide(o: Operand) -> bool
    ensures { result ≡ is_wide (field_of o) }
{
    sets::has(WIDE, o)
}

// Its number is part of the code: at no width, Imm4, Imm8 and RegList.
#[tactic(auto, unfolding(crate::specs::steps::Coarse::whole, record::specs::Same::same_name))]
pub fn is_whole(w: Width, o: Operand) -> bool
    ensures { result ≡ whole w o }
{
    match w {
        Width::None => matches!(o, Operand::Imm4 | Operand::Imm8 | Operand::RegList),
        _ => false,
    }
}
