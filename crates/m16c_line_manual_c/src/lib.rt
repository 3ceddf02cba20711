// What the crate m16c_line_manual has, under the names that C sees.

#![tactic(auto)]

ghost use Rattle.by_manual.specs.Table.{by_manual};
ghost use Rattle.m16c_line.specs.Lined.{Lines};

#[unsafe(no_mangle)]
pub extern "C" fn m16c_line_manual(
    image: &[u8],
    at: usize,
    out: &mut [u8],
    line_length: &mut usize,
) -> u32
    ensures { Lines by_manual image.now at out.old result line_length.new out.new }
{
    m16c_line_manual::m16c_line_manual(image, at, out, line_length)
}
