// What the choice asks of a key.
#![tactic(auto, unfolding(record::specs::Same::same_name))]

ghost use Rattle.std.specs.Prelude.{◌≡◌, eqb};
ghost use Rattle.laws.specs.Choice.{pick, both};
ghost use Rattle.encode_choice.specs.steps.Choose as choice;

use crate::{Asked, names};
use record::{Key, Opcode, Operand};

fn by_number(zero: bool, small: bool, deref: Operand, disp8: Operand, disp16: Operand) -> Operand
    ensures { result ≡ pick zero deref (pick small disp8 disp16) }
{
    if zero {
        return deref;
    }
    if small { disp8 } else { disp16 }
}

// The shortest name for a base, as its number is 0, or below 256.
#[inline]
fn narrow(o: Operand, zero: bool, small: bool) -> Operand
    ensures { result ≡ choice.narrow o zero small }
{
    match o {
        Operand::Disp16_A0 => by_number(zero, small, Operand::Deref_A0, Operand::Disp8_A0, o),
        Operand::Disp16_A1 => by_number(zero, small, Operand::Deref_A1, Operand::Disp8_A1, o),
        Operand::Disp16_SB => by_number(false, small, o, Operand::Disp8_SB, o),
        _ => o,
    }
}

fn whole_number(k: Key) -> u32
    ensures { result ≡ (choice.asked k).number }
{
    if names::is_whole(k.width, k.base0) {
        k.number0
    } else {
        0
    }
}

// No row of MOVA or PUSHA names Deref: there a displacement of 0 is not dropped.
#[tactic(auto, unfolding(crate::specs::steps::Choose::drops_zero))]
fn drops_zero(o: Opcode) -> bool
    ensures { result ≡ choice.drops_zero o }
{
    !matches!(o, Opcode::MOVA | Opcode::PUSHA)
}

fn zero_dropped(k: Key) -> bool
    ensures { result ≡ both (choice.drops_zero k.opcode) (eqb k.number0 0) }
{
    drops_zero(k.opcode) && k.number0 == 0
}

pub fn asked(k: Key) -> Asked
    ensures { result ≡ choice.asked k }
{
    Asked {
        size: k.size,
        width: k.width,
        op0: narrow(k.base0, zero_dropped(k), k.number0 < 256),
        op1: narrow(k.base1, k.number1 == 0, k.number1 < 256),
        number: whole_number(k),
    }
}
