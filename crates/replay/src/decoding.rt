// A line with bytes, and what decoding them gives.
ghost use Rattle.replay.specs.Verdict.{Tells};
ghost use Rattle.replay.specs.Decoding.{Whole, Right};

use crate::form::Line;
use crate::given;
use crate::numbers::{Numbers, numbers_in};

// Bytes given, at most eight; eight bytes; refusal, bytes taken; opcode, size, operands; imm_wide, dispabs, length.
pub(crate) fn is_whole(line: &Line) -> bool
    ensures { Tells result (Whole line.now) }
{
    let form = b"# ################ # # ######### ######## #### #\n";
    given::is_whole(line, form, 0)
}

pub(crate) fn agrees(line: &Line) -> bool
    requires { Whole line.now }
    ensures { Tells result (Right line.now) }
{
    let said = numbers_in(line);
    let found = Numbers::from(given::answer_at(line, 0));
    said == found
}
