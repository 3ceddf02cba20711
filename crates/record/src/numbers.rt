// The number of each name: its place in its enum. (Four impls: `as` takes one enum, and each states a table of its own.)
ghost use Rattle.std.specs.Prelude.{◌≡◌};
ghost use Rattle.record.specs.Numbers.{opcode_no, size_no, width_no, operand_no};

use crate::{Opcode, Operand, Size, Width};

impl From<Opcode> for u32 {
    ghost from_gives = { λ x r. r ≡ opcode_no x };

    fn from(x: Opcode) -> u32 {
        x as u32
    }
}

impl From<Size> for u32 {
    ghost from_gives = { λ x r. r ≡ size_no x };

    fn from(x: Size) -> u32 {
        x as u32
    }
}

impl From<Width> for u32 {
    ghost from_gives = { λ x r. r ≡ width_no x };

    fn from(x: Width) -> u32 {
        x as u32
    }
}

impl From<Operand> for u32 {
    ghost from_gives = { λ x r. r ≡ operand_no x };

    fn from(x: Operand) -> u32 {
        x as u32
    }
}
