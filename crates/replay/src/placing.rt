// A line with bytes, where decoding them says that the numbers stand, and how many registers a list names.
ghost use Rattle.std.specs.Prelude.{◌≡◌, ◌<◌};
ghost use Rattle.replay.specs.Verdict.{Tells};
ghost use Rattle.replay.specs.Placing.{Whole, part_at, parts_in, Right};

use crate::form::Line;
use crate::{given, hex};
use record::{Part, Parts};

// Bytes given, at most eight; eight bytes; refusal; offset and width of first, of dispabs, of imm_wide; registers.
pub(crate) fn is_whole(line: &Line) -> bool
    ensures { Tells result (Whole line.now) }
{
    let form = b"P# ################ # ## ## ## #                \n";
    given::is_whole(line, form, 1)
}

fn part_at(line: &Line, at: usize) -> Part
    requires { at < 48 }
    ensures { result ≡ part_at line.now at }
{
    Part {
        offset: hex::digit_at(line, at),
        width: hex::digit_at(line, at + 1),
    }
}

fn parts_in(line: &Line) -> Parts
    ensures { result ≡ parts_in line.now }
{
    Parts {
        first: part_at(line, 22),
        dispabs: part_at(line, 25),
        imm_wide: part_at(line, 28),
    }
}

pub(crate) fn agrees(line: &Line) -> bool
    requires { Whole line.now }
    ensures { Tells result (Right line.now) }
{
    let (refusal, inst) = match given::answer_at(line, 1) {
        Ok(r) => (0, r),
        Err(e) => (u32::from(e.why), record::BLANK),
    };
    let found = (refusal, inst.parts, inst.registers);
    let said = (
        u32::from(hex::digit_at(line, 20)),
        parts_in(line),
        hex::digit_at(line, 31),
    );
    found == said
}
