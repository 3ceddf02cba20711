// What the crate m16c_decode has, under the names that C sees.

#![tactic(auto)]

ghost use Rattle.rows.specs.Groups.{document01};
ghost use Rattle.by_manual.specs.Table.{by_manual};
ghost use Rattle.m16c_decode.specs.Decoded.{Decodes};

#[unsafe(no_mangle)]
pub extern "C" fn m16c_decode(image: &[u8], at: usize, out: &mut [u32]) -> u32
    ensures { Decodes document01 image.now at out.old result out.new }
{
    m16c_decode::m16c_decode(image, at, out)
}

#[unsafe(no_mangle)]
pub extern "C" fn m16c_decode_manual(image: &[u8], at: usize, out: &mut [u32]) -> u32
    ensures { Decodes by_manual image.now at out.old result out.new }
{
    m16c_decode::m16c_decode_manual(image, at, out)
}
