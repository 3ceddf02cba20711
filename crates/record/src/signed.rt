// An operand's number as it is counted: signed where its name says so.
ghost use Rattle.std.specs.Prelude.{◌≡◌};
ghost use Rattle.record.specs.Signed.{is_signed, signed, number_of, name_at, number_at};

use crate::fields::Field;
use crate::{Operand, Record, fields};

// A number and the field that holds it; nowhere and 0 if there is none. (No Option: `number_at` of record/specs/Signed gives both of every operand.)
#[derive(Clone, Copy)]
pub struct Number {
    pub field: Field,
    pub value: i64,
}

// Whether a name's number is signed: a displacement from the frame base, a jump's distance.
#[tactic(auto, unfolding(crate::specs::Signed::is_signed, crate::specs::Same::among, crate::specs::Same::same_name))]
pub fn is_signed(o: Operand) -> bool
    ensures { result ≡ is_signed o }
{
    matches!(o, Operand::Disp8_FB | Operand::Disp8)
}

// A byte counts from -80 to 7F (hex).
fn signed_byte(b: u8) -> i64
    ensures { result ≡ signed b }
{
    if b < 0x80 {
        return i64::from(b);
    }
    i64::from(b) - 0x100
}

// What a name's field holds, as a number.
pub fn number_of(o: Operand, v: u32) -> i64
    ensures { result ≡ number_of o v }
{
    if is_signed(o) {
        return signed_byte((v % 0x100) as u8);
    }
    i64::from(v)
}

// Operand k. There are operands 0, 1 and 2.
fn name_at(r: Record, k: usize) -> Operand
    ensures { result ≡ name_at r k }
{
    if k == 0 {
        return r.op0;
    }
    if k == 1 {
        return r.op1;
    }
    if k == 2 {
        return r.op2;
    }
    Operand::Nothing
}

// The number of operand k, and where it is.
pub fn number_at(r: Record, k: usize) -> Number
    ensures { result ≡ number_at r k }
{
    let field = fields::field_at(r, k);
    Number {
        field,
        value: number_of(name_at(r, k), fields::value_of(field, r)),
    }
}
