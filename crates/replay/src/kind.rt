// What a line of the stored list holds: a record to encode by a reading, an image to sweep by a rule, a record with an operand to ask for, bytes whose
// numbers are to be placed, or bytes to decode. (A bool for the reading, as in `encode::encode`.)
ghost use Rattle.std.specs.Prelude.{◌≡◌};
ghost use Rattle.replay.specs.Line.{kind_of};

use crate::form::Line;
use sweep::Rule;

#[derive(Clone, Copy)]
pub enum Kind {
    Encodes { manual: bool },
    Sweeps(Rule),
    Asks,
    Places,
    Decodes,
}

// Its first character tells.
pub(crate) fn kind_of(line: &Line) -> Kind
    ensures { result ≡ kind_of line.now }
{
    match line[0] {
        b'E' => Kind::Encodes { manual: false },
        b'S' => Kind::Sweeps(Rule::Stop),
        b'G' => Kind::Sweeps(Rule::GoOn),
        b'N' => Kind::Asks,
        b'P' => Kind::Places,
        b'M' => Kind::Encodes { manual: true },
        _ => Kind::Decodes,
    }
}
