// What the crate m16c_encode has, under the names that C sees.

#![tactic(auto)]

ghost use Rattle.rows.specs.Groups.{document01};
ghost use Rattle.encode_rules.specs.Written.{outcome};
ghost use Rattle.m16c_encode.specs.Numbers.{EncodesNumbers};

#[unsafe(no_mangle)]
pub extern "C" fn m16c_encode(
    numbers: &[u32],
    buf: &mut [u8],
    place: usize,
    bytes_written: &mut usize,
) -> u32
    ensures { EncodesNumbers document01 numbers.now buf.old place (outcome result bytes_written.new buf.new) }
{
    m16c_encode::m16c_encode(numbers, buf, place, bytes_written)
}
