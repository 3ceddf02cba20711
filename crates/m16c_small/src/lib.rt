// The functions for C of the small archive: in one crate, and so in one object, where the decoder stands once. The sweep is not among
// them: it keeps no record, and behind a decoder that makes one it takes over three times its instructions.
#![tactic(auto)]

ghost use Rattle.rows.specs.Groups.{document01};
ghost use Rattle.m16c_decode.specs.Decoded.{Decodes};
ghost use Rattle.encode_rules.specs.Written.{outcome};
ghost use Rattle.lengths.specs.Length.{LengthOf};
ghost use Rattle.m16c_encode.specs.Numbers.{EncodesNumbers};
ghost use Rattle.m16c_line.specs.Lined.{Lines};
ghost use Rattle.m16c_operand_number.specs.Told.{TellsNumber};

use record::refusal;

pub fn m16c_decode(image: &[u8], at: usize, out: &mut [u32]) -> u32
    ensures { Decodes document01 image.now at out.old result out.new }
{
    m16c_decode::decode_into(false, image, at, out)
}

pub fn m16c_encode(numbers: &[u32], buf: &mut [u8], place: usize, bytes_written: &mut usize) -> u32
    ensures { EncodesNumbers document01 numbers.now buf.old place (outcome result bytes_written.new buf.new) }
{
    m16c_encode::m16c_encode(numbers, buf, place, bytes_written)
}

pub fn m16c_line(image: &[u8], at: usize, out: &mut [u8], line_length: &mut usize) -> u32
    ensures { Lines document01 image.now at out.old result line_length.new out.new }
{
    m16c_line::m16c_line(image, at, out, line_length)
}

// By decoding, with five zeros behind the first two bytes: the table takes over ten times the bytes.
pub fn m16c_length(bytes: &[u8], length: &mut usize) -> u32
    ensures { LengthOf document01 bytes.now result length.new }
{
    let decoded = match bytes {
        [a, b, ..] => decode::decode(&[*a, *b, 0, 0, 0, 0, 0], 0),
        _ => decode::decode(bytes, 0),
    };
    let told = match decoded {
        Ok(inst) => Ok(inst.length),
        Err(refused) => Err(refused.why),
    };
    refusal::leave(told, length)
}

pub fn m16c_operand_number(numbers: &[u32], k: usize, number: &mut i64) -> u32
    ensures { TellsNumber numbers.now k result number.new }
{
    m16c_operand_number::m16c_operand_number(numbers, k, number)
}
