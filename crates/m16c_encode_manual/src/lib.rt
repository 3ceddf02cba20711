// The encoder of request A9's reading for C, a crate of its own as m16c_encode is.

#![tactic(auto)]

ghost use Rattle.by_manual.specs.Table.{by_manual};
ghost use Rattle.encode_rules.specs.Written.{outcome};
ghost use Rattle.m16c_encode.specs.Numbers.{EncodesNumbers};

use record::refusal;

// Encodes as m16c_encode does, by the manual: records that m16c_decode_manual fills. A record does not say which reading made it, and of one
// that m16c_decode filled this may write another instruction: the record of 7D B9 becomes 7D B1.
pub fn m16c_encode_manual(
    numbers: &[u32],
    buf: &mut [u8],
    place: usize,
    bytes_written: &mut usize,
) -> u32
    ensures { EncodesNumbers by_manual numbers.now buf.old place (outcome result bytes_written.new buf.new) }
{
    let written = m16c_encode::encode_numbers(numbers, buf, place, true);
    refusal::leave(written, bytes_written)
}
