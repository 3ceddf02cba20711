// A listing's line for C, a crate of its own: the functions below are inlined into it only where they have one caller.

#![tactic(auto)]

ghost use Rattle.rows.specs.Groups.{document01};
ghost use Rattle.by_manual.specs.Table.{table_by};
ghost use Rattle.m16c_line.specs.Lined.{Lines};

use record::refusal;

// By document 01 or by the manual. (A bool, as in `decode::decode_by`.)
pub fn line_by(
    manual: bool,
    image: &[u8],
    at: usize,
    out: &mut [u8],
    line_length: &mut usize,
) -> u32
    ensures { Lines (table_by manual) image.now at out.old result line_length.new out.new }
{
    let written = match decode::decode_by(manual, image, at) {
        Ok(inst) => line::line(at, inst, out),
        Err(refused) => Err(refused.why),
    };
    refusal::leave(written, line_length)
}

// The listing's line of the instruction at a place of an image, without a newline, over the first bytes of a buffer. Returns 0 and leaves
// the line's length; or decoding's refusal, or 6 where the line has no room, with length 0 and the buffer as it was.
pub fn m16c_line(image: &[u8], at: usize, out: &mut [u8], line_length: &mut usize) -> u32
    ensures { Lines document01 image.now at out.old result line_length.new out.new }
{
    line_by(false, image, at, out, line_length)
}
