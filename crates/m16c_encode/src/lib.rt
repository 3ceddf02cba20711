// The encoder for C, a crate of its own: the functions below are inlined into it only where they have one caller.

#![tactic(auto)]

ghost use Rattle.record.specs.Answer.{refusal_in, length_in};
ghost use Rattle.rows.specs.Groups.{document01};
ghost use Rattle.by_manual.specs.Table.{table_by};
ghost use Rattle.encode_rules.specs.Written.{outcome};
ghost use Rattle.m16c_encode.specs.Numbers.{EncodesNumbers};

use record::refusal;
use record::refusal::Refusal;

// The record of the first twelve numbers that m16c_decode fills, from a place of a buffer on. Taken, length and marked do not count, nor
// what stands behind. (A bool for the reading, as in `encode::encode`.)
pub fn encode_numbers(
    numbers: &[u32],
    buf: &mut [u8],
    place: usize,
    manual: bool,
) -> Result<usize, Refusal>
    ensures { EncodesNumbers (table_by manual) numbers.now buf.old place (outcome (refusal_in result) (length_in result) buf.new) }
{
    // Encoding the blank record would refuse them as well, in more bytes of code.
    if !from_numbers::is_record(numbers) {
        return Err(Refusal::NoString);
    }
    encode::encode(from_numbers::record_of(numbers), manual, buf, place)
}

// Encodes the record of the first twelve numbers that m16c_decode fills, from a place of a buffer on. Taken, length and marked do not
// count, nor what stands behind. Returns 0 and leaves the number of bytes written, or 5 or 6 with 0 and the buffer as it was.
pub fn m16c_encode(numbers: &[u32], buf: &mut [u8], place: usize, bytes_written: &mut usize) -> u32
    ensures { EncodesNumbers document01 numbers.now buf.old place (outcome result bytes_written.new buf.new) }
{
    refusal::leave(encode_numbers(numbers, buf, place, false), bytes_written)
}
