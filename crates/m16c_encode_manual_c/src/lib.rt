// What the crate m16c_encode_manual has, under the names that C sees.

#![tactic(auto)]

ghost use Rattle.by_manual.specs.Table.{by_manual};
ghost use Rattle.encode_rules.specs.Written.{outcome};
ghost use Rattle.m16c_encode.specs.Numbers.{EncodesNumbers};

#[unsafe(no_mangle)]
pub extern "C" fn m16c_encode_manual(
    numbers: &[u32],
    buf: &mut [u8],
    place: usize,
    bytes_written: &mut usize,
) -> u32
    ensures { EncodesNumbers by_manual numbers.now buf.old place (outcome result bytes_written.new buf.new) }
{
    m16c_encode_manual::m16c_encode_manual(numbers, buf, place, bytes_written)
}
