// The listing's lines, without their newlines, into a buffer that is passed in.

#![tactic(auto)]

mod names; // names
mod words; // the line in parts
mod write; // the parts into the buffer

ghost use Rattle.line.specs.Left.{Writes};
ghost use Rattle.line.specs.Line.{line_of, from_width, end_text, refused_text};

use record::Record;
use record::refusal::Refusal;

// The line of a record at a place. This and the others answer the length written, or that there is too little room.
pub fn line(place: usize, r: Record, out: &mut [u8]) -> Result<usize, Refusal>
    ensures { Writes (line_of place r) out.old result out.new }
{
    let words = words::words_of(words::place_word(place), words::length_word(r.length), r);
    write::deliver(&words, out)
}

// The same from the width on.
pub fn line_from_width(r: Record, out: &mut [u8]) -> Result<usize, Refusal>
    ensures { Writes (from_width r) out.old result out.new }
{
    let words = words::words_of(0, 0, r);
    write::deliver(&words, out)
}

// The line at an image's end.
#[tactic(auto, using(crate::proofs::Room::said, crate::proofs::Lined::ending))]
pub fn end(place: usize, out: &mut [u8]) -> Result<usize, Refusal>
    ensures { Writes (end_text place) out.old result out.new }
{
    let words = words::end_words(place);
    write::deliver(&words, out)
}

// The line of a refused place. (The refusal is a number, as the line shows it: any number is taken, as PROMISES.md says.)
#[tactic(auto, using(crate::proofs::Room::said, crate::proofs::Lined::refusing))]
pub fn refused(place: usize, refusal: u8, taken: usize, out: &mut [u8]) -> Result<usize, Refusal>
    ensures { Writes (refused_text place refusal taken) out.old result out.new }
{
    let words = words::refused_words(place, refusal, taken);
    write::deliver(&words, out)
}
