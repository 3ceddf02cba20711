// What counts of a record.
ghost use Rattle.std.specs.Prelude.{◌≡◌};
ghost use Rattle.record.specs.Same.{base_of, key};

use record::{Key, Operand, Record, fields};

#[tactic(auto, unfolding(record::specs::Same::same_name, record::specs::Same::among, record::specs::Same::base_of))]
pub(crate) fn base_of(o: Operand) -> Operand
    ensures { result ≡ base_of o }
{
    match o {
        Operand::Deref_A0 | Operand::Disp8_A0 => Operand::Disp16_A0,
        Operand::Deref_A1 | Operand::Disp8_A1 => Operand::Disp16_A1,
        Operand::Disp8_SB => Operand::Disp16_SB,
        _ => o,
    }
}

pub(crate) fn key_of(r: Record) -> Key
    ensures { result ≡ key r }
{
    let numbers = fields::numbers_of(r);
    Key {
        opcode: r.opcode,
        size: r.size,
        width: r.width,
        base0: base_of(r.op0),
        base1: base_of(r.op1),
        base2: base_of(r.op2),
        number0: numbers.number0,
        number1: numbers.number1,
        number2: numbers.number2,
    }
}
