// A listing's line by the manual for C, a crate of its own, so that the line by document 01 has nothing of it inside.

#![tactic(auto)]

ghost use Rattle.by_manual.specs.Table.{by_manual};
ghost use Rattle.m16c_line.specs.Lined.{Lines};

// The line as m16c_line writes it, of the instruction that stands there by the manual.
pub fn m16c_line_manual(image: &[u8], at: usize, out: &mut [u8], line_length: &mut usize) -> u32
    ensures { Lines by_manual image.now at out.old result line_length.new out.new }
{
    m16c_line::line_by(true, image, at, out, line_length)
}
