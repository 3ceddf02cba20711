// The bytes that a line gives, and what decoding says of them.
ghost use Rattle.std.specs.Prelude.{◌≡◌, ◌<◌, ◌≤◌};
ghost use Rattle.record.specs.Answer.{answer_of};
ghost use Rattle.replay.specs.Hex.{digit_at};
ghost use Rattle.replay.specs.Form.{Gives};
ghost use Rattle.replay.specs.Given.{answer_at};
ghost use Rattle.replay.specs.Verdict.{Tells};

use crate::form::Line;
use crate::{form, hex};
use readers::answer::Decoded;

// Whether a line has a form, and its digit at a place says that at most eight bytes are given.
pub(crate) fn is_whole(line: &Line, form: &Line, at: usize) -> bool
    requires { at < 49 }
    ensures { Tells result (Gives form.now (digit_at line.now at) 8 line.now) }
{
    form::has(line, form) && hex::digit_at(line, at) <= 8
}

// What decoding says of these bytes: behind the digit and a space stand eight, of which so many count.
pub(crate) fn answer_at(line: &Line, at: usize) -> Decoded
    requires { (at ≤ 1) × (digit_at line.now at ≤ 8) }
    ensures { answer_of result ≡ answer_at line.now at }
{
    let bytes: [u8; 8] = hex::bytes_at(line, at + 2);
    let count = usize::from(hex::digit_at(line, at));
    decode::decode(&bytes[..count], 0)
}
