// What the crate m16c_operand_number has, under the names that C sees.

#![tactic(auto)]

ghost use Rattle.m16c_operand_number.specs.Told.{TellsNumber};

#[unsafe(no_mangle)]
pub extern "C" fn m16c_operand_number(numbers: &[u32], k: usize, number: &mut i64) -> u32
    ensures { TellsNumber numbers.now k result number.new }
{
    m16c_operand_number::m16c_operand_number(numbers, k, number)
}
