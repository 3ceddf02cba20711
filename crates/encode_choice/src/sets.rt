// Sets of names as numbers: bit n is the name of number n. A first set has the sizes' bits behind those of the names.
ghost use Rattle.std.specs.Prelude.{◌≡◌};
ghost use Rattle.record.specs.Numbers.{operand_no};
ghost use Rattle.encode_choice.specs.steps.NameSet.{size_bit, has_bit};

use record::{Operand, Size};

// How many names an operand can have.
const NAMES: u32 = 57;

pub(crate) fn has(names: u64, o: Operand) -> bool
    ensures { result ≡ has_bit names (operand_no o) }
{
    (names >> u32::from(o)) % 2 == 1
}

pub(crate) fn has_size(names: u64, s: Size) -> bool
    ensures { result ≡ has_bit names (size_bit s) }
{
    (names >> (NAMES + u32::from(s))) % 2 == 1
}
