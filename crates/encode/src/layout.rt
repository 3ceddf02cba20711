// The numbers behind a code.
ghost use Rattle.std.specs.Prelude.{◌≡◌, ◌∷◌, ◌++◌, eqb};
ghost use Rattle.laws.specs.Choice.{pick};
ghost use Rattle.encode_rules.specs.Says.{bytes, none};
ghost use Rattle.encode_rules.specs.steps.Digits.{digits};
ghost use Rattle.encode_choice.specs.steps.Coarse.{whole_row};
ghost use Rattle.encode.specs.steps.Faced as faced;
ghost use Rattle.encode.specs.steps.Faced.{face_by};
ghost use Rattle.encode.specs.steps.Plan.{planned, found_by};
ghost use Rattle.encode.specs.steps.Slots as slots;

use crate::counts::Slot;
use crate::plan::{Number, Plan};
use crate::{condition, counts};
use encode_choice::{Asked, names};
use record::{Key, Operand};

#[tactic(auto, unfolding(crate::specs::steps::Slots::turns, record::specs::Same::same_name, record::specs::Same::among, record::specs::Same::field_of))]
fn turns(o: Operand) -> bool
    ensures { result ≡ slots.turns o }
{
    matches!(
        o,
        Operand::Imm4
            | Operand::Imm8
            | Operand::Imm16
            | Operand::Disp8_SP
            | Operand::Disp20_A0
            | Operand::Disp20_A1
            | Operand::Abs20
            | Operand::Disp8
            | Operand::RegList
    )
}

// Operand 0's, of no bytes if it is part of the code.
#[tactic(auto, using(crate::proofs::Narrowed::whole_base))]
fn number0(q: Asked, slot: Slot, k: Key) -> Number
    ensures { (result.count ≡ pick (whole_row (face_by q)) 0 slot.count) × (result.value ≡ k.number0) }
{
    if names::is_whole(q.width, q.op0) {
        return Number {
            count: 0,
            value: k.number0,
        };
    }
    Number {
        count: slot.count,
        value: k.number0,
    }
}

// Operand 1's, or the condition that the code reads.
fn number1(a: u8, b: u8, slot: Slot, k: Key) -> Number
    ensures { (result.count ≡ pick (eqb (faced.conditions a b) 0) slot.count 1) × (result.value ≡ slots.number1 (faced.conditions a b) k) }
{
    if condition::is_read(a, b) {
        return Number {
            count: 1,
            value: u32::from(condition::byte_of(k.opcode)),
        };
    }
    Number {
        count: slot.count,
        value: k.number1,
    }
}

// Two numbers behind a code, the second one first if they are turned.
fn in_order(a: u8, b: u8, turned: bool, n: Number, m: Number) -> Plan
    ensures { planned result ≡ a ∷ b ∷ pick turned (digits m.count m.value ++ digits n.count n.value) (digits n.count n.value ++ digits m.count m.value) }
{
    let (number, rest) = if turned { (m, n) } else { (n, m) };
    Plan {
        first: a,
        second: b,
        number,
        rest,
    }
}

// A code and what stands behind it, if each number is small enough for its bytes.
pub(crate) fn plan_of(a: u8, b: u8, q: Asked, k: Key) -> Option<Plan>
    ensures { found_by result ≡ pick (slots.fitting (face_by q) k) (bytes (a ∷ b ∷ slots.slots (face_by q) (faced.conditions a b) k)) none }
{
    let slot0 = counts::slot_of(q.op0);
    let slot1 = counts::slot_of(q.op1);
    // (`&` makes both tests, and takes no branch between them.)
    if (k.number0 < slot0.limit) & (k.number1 < slot1.limit) {
        let n = number0(q, slot0, k);
        let m = number1(a, b, slot1, k);
        return Some(in_order(a, b, turns(q.op0), n, m));
    }
    None
}
