// What the crate m16c_length has, under the names that C sees.

#![tactic(auto)]

ghost use Rattle.rows.specs.Groups.{document01};
ghost use Rattle.lengths.specs.Length.{LengthOf};

#[unsafe(no_mangle)]
pub extern "C" fn m16c_length(bytes: &[u8], length: &mut usize) -> u32
    ensures { LengthOf document01 bytes.now result length.new }
{
    m16c_length::m16c_length(bytes, length)
}
