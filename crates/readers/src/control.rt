ghost use Rattle.std.specs.Prelude.{◌≡◌, ◌%◌};
ghost use Rattle.rows.specs.Codes.{name_K};

use record::Operand;

const NAMES: [Operand; 8] = [
    Operand::Nothing,
    Operand::INTBL,
    Operand::INTBH,
    Operand::FLG,
    Operand::ISP,
    Operand::SP,
    Operand::SB,
    Operand::FB,
];

// K(code), by the low three bits; 0 names nothing, as `name_K` says, and the groups refuse it.
pub fn control_name(code: u8) -> Operand
    ensures { result ≡ name_K (code % 8) }
{
    // (`as` and no conversion, here and below: that is a call, one step more in each proof.)
    NAMES[(code % 8) as usize]
}
