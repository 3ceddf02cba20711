// A record from the first twelve numbers that a program passes in, in the order that m16c_decode fills.

#![tactic(auto)]

ghost use Rattle.std.specs.Prelude.{◌≡◌, ◌≤◌, ◌<◌, length, get_or};
ghost use Rattle.from_numbers.specs.Made.{valid, made_of, record_of};

use record::{Opcode, Operand, Record, Size, Width, names};

// Whether the first twelve numbers make a record. (A bool beside `record_of`: an Option of a record takes more, see docs/DECISIONS.md.)
#[tactic(auto, using(crate::proofs::Valid::refused, crate::proofs::Valid::accepted))]
pub fn is_record(numbers: &[u32]) -> bool
    ensures { result ≡ valid numbers.now }
{
    numbers.len() >= 12
        && numbers[1] <= names::LAST_OPCODE
        && numbers[2] <= names::LAST_SIZE
        && numbers[3] <= names::LAST_WIDTH
        && numbers[4] <= names::LAST_OPERAND
        && numbers[5] <= names::LAST_OPERAND
        && numbers[6] <= names::LAST_OPERAND
        && numbers[8] <= 0xFFFF
        && numbers[9] <= 0xFFFF
}

fn made_of(numbers: &[u32]) -> Record
    requires { (12 ≤ length numbers.now) × (get_or numbers.now 8 0 < 65536) × (get_or numbers.now 9 0 < 65536) }
    ensures { result ≡ made_of numbers.now }
{
    Record {
        imm_wide: numbers[7],
        dispabs: numbers[8] as u16,
        first: numbers[9] as u16,
        length: 0,
        opcode: Opcode::from(numbers[1]),
        size: Size::from(numbers[2]),
        width: Width::from(numbers[3]),
        op0: Operand::from(numbers[4]),
        op1: Operand::from(numbers[5]),
        op2: Operand::from(numbers[6]),
        marked: false,
        dropped: false,
        registers: 0,
        parts: record::NO_PARTS,
    }
}

// The record that numbers make; of numbers that make none, the blank record, so that what rests on it needs no clause for them.
#[tactic(auto, using(crate::proofs::Valid::bounded))]
pub fn record_of(numbers: &[u32]) -> Record
    ensures { result ≡ record_of numbers.now }
{
    if is_record(numbers) {
        return made_of(numbers);
    }
    record::BLANK
}
