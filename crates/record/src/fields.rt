// Where a record holds the number of each operand.
ghost use Rattle.std.specs.Prelude.{◌≡◌};
ghost use Rattle.record.specs.Same.{field_of, shared, field_at, value_of, key};

use crate::{Operand, Record};

// No number; `imm_wide`; `dispabs`; `first`. (Nowhere is one of them, and no Option: what holds of every field, as `Inside` and `patched`, holds of it.)
#[derive(Clone, Copy, PartialEq, Eq)]
pub enum Field {
    Nowhere,
    Wide,
    Short,
    Early,
}

#[derive(Clone, Copy)]
pub struct Numbers {
    pub number0: u32,
    pub number1: u32,
    pub number2: u32,
}

// The field that a name asks for.
#[tactic(auto, unfolding(crate::specs::Same::field_of, crate::specs::Same::among, crate::specs::Same::same_name))]
pub fn field_of(o: Operand) -> Field
    ensures { result ≡ field_of o }
{
    match o {
        Operand::Imm4
        | Operand::Imm8
        | Operand::Imm16
        | Operand::Abs20
        | Operand::Disp20_A0
        | Operand::Disp20_A1
        | Operand::Disp8
        | Operand::RegList => Field::Wide,
        Operand::Disp8_A0
        | Operand::Disp8_A1
        | Operand::Disp8_SB
        | Operand::Disp8_FB
        | Operand::Disp8_SP
        | Operand::Disp16_A0
        | Operand::Disp16_A1
        | Operand::Disp16_SB
        | Operand::Abs16
        | Operand::Bit_R0
        | Operand::Bit_R1
        | Operand::Bit_R2
        | Operand::Bit_R3
        | Operand::Bit_A0
        | Operand::Bit_A1
        | Operand::Bit_Disp8_A0
        | Operand::Bit_Disp8_A1
        | Operand::Bit_Disp8_SB
        | Operand::Bit_Disp8_FB
        | Operand::Bit_Disp16_A0
        | Operand::Bit_Disp16_A1
        | Operand::Bit_Disp16_SB
        | Operand::Bit_Abs16 => Field::Short,
        _ => Field::Nowhere,
    }
}

// An operand's own field beside another's: where both ask for `dispabs` and it is the other's, `first`.
// (The operands are passed in, not their fields: so the compiler makes bit tests of the names.)
pub fn shared_field(own: Operand, other: Operand, others: bool) -> Field
    ensures { result ≡ shared (field_of own) (field_of other) others }
{
    let field = field_of(own);
    match field {
        Field::Nowhere => field,
        Field::Wide => field,
        Field::Early => field,
        Field::Short => {
            if others {
                let beside = field_of(other);
                match beside {
                    Field::Nowhere => field,
                    Field::Wide => field,
                    Field::Early => field,
                    Field::Short => Field::Early,
                }
            } else {
                field
            }
        }
    }
}

// The field of operand k's number. There are operands 0, 1 and 2.
pub fn field_at(r: Record, k: usize) -> Field
    ensures { result ≡ field_at r k }
{
    let op0 = r.op0;
    let op1 = r.op1;
    let op2 = r.op2;
    let on_stack = op0 == Operand::Disp8_SP;
    if k == 0 {
        return shared_field(op0, op1, !on_stack);
    }
    if k == 1 {
        return shared_field(op1, op0, on_stack);
    }
    if k == 2 {
        return field_of(op2);
    }
    Field::Nowhere
}

// What a field of a record holds.
pub fn value_of(f: Field, r: Record) -> u32
    ensures { result ≡ value_of f r }
{
    match f {
        Field::Nowhere => 0,
        Field::Wide => r.imm_wide,
        Field::Short => u32::from(r.dispabs),
        Field::Early => u32::from(r.first),
    }
}

// What the fields of a record's three operands hold.
pub fn numbers_of(r: Record) -> Numbers
    ensures { (result.number0 ≡ (key r).number0) × (result.number1 ≡ (key r).number1) × (result.number2 ≡ (key r).number2) }
{
    Numbers {
        number0: value_of(field_at(r, 0), r),
        number1: value_of(field_at(r, 1), r),
        number2: value_of(field_at(r, 2), r),
    }
}
