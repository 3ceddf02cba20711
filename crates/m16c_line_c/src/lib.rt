// What the crate m16c_line has, under the names that C sees.

#![tactic(auto)]

ghost use Rattle.rows.specs.Groups.{document01};
ghost use Rattle.m16c_line.specs.Lined.{Lines};

#[unsafe(no_mangle)]
pub extern "C" fn m16c_line(image: &[u8], at: usize, out: &mut [u8], line_length: &mut usize) -> u32
    ensures { Lines document01 image.now at out.old result line_length.new out.new }
{
    m16c_line::m16c_line(image, at, out, line_length)
}
