// An operand's number for C, a crate of its own: the functions below are inlined into it only where they have one caller.

#![tactic(auto)]

ghost use Rattle.std.specs.Prelude.{◌≡◌};
ghost use Rattle.m16c_operand_number.specs.Told.{refusal_of, TellsNumber};

use record::fields::Field;
use record::refusal::Refusal;
use record::signed;

// What C is told of a field: there is no Result here, since its number is left either way.
fn refusal_of(f: Field) -> u32
    ensures { result ≡ refusal_of f }
{
    match f {
        Field::Nowhere => u32::from(Refusal::NoString),
        Field::Wide | Field::Short | Field::Early => 0,
    }
}

// The number of operand k of the record of the first twelve numbers that m16c_decode fills: signed for Disp8_FB and Disp8, whose low byte
// counts from -128 to 127, and for any other name its field as it is. Taken, length and marked do not count, nor what stands behind.
// Returns 0 and leaves the number; or 5 and 0 where the numbers make no record or it has no operand k with a number.
pub fn m16c_operand_number(numbers: &[u32], k: usize, number: &mut i64) -> u32
    ensures { TellsNumber numbers.now k result number.new }
{
    let n = signed::number_at(from_numbers::record_of(numbers), k);
    *number = n.value;
    refusal_of(n.field)
}
