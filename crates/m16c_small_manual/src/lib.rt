// The functions by the manual of the small archive: in one crate, and so in one object, where the decoder by the manual stands once. Those by
// document 01 are another: a program that goes by one reading has nothing of the other.
#![tactic(auto)]

ghost use Rattle.by_manual.specs.Table.{by_manual};
ghost use Rattle.m16c_decode.specs.Decoded.{Decodes};
ghost use Rattle.encode_rules.specs.Written.{outcome};
ghost use Rattle.m16c_encode.specs.Numbers.{EncodesNumbers};
ghost use Rattle.m16c_line.specs.Lined.{Lines};

pub fn m16c_decode_manual(image: &[u8], at: usize, out: &mut [u32]) -> u32
    ensures { Decodes by_manual image.now at out.old result out.new }
{
    m16c_decode::decode_into(true, image, at, out)
}

pub fn m16c_encode_manual(
    numbers: &[u32],
    buf: &mut [u8],
    place: usize,
    bytes_written: &mut usize,
) -> u32
    ensures { EncodesNumbers by_manual numbers.now buf.old place (outcome result bytes_written.new buf.new) }
{
    m16c_encode_manual::m16c_encode_manual(numbers, buf, place, bytes_written)
}

pub fn m16c_line_manual(image: &[u8], at: usize, out: &mut [u8], line_length: &mut usize) -> u32
    ensures { Lines by_manual image.now at out.old result line_length.new out.new }
{
    m16c_line_manual::m16c_line_manual(image, at, out, line_length)
}
