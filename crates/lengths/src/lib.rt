// The length of an instruction from its first two bytes, by a table of all codes.

#![tactic(auto)]

mod first;
mod table;

ghost use Rattle.std.specs.Prelude.{◌≡◌, IsTrue};
ghost use Rattle.record.specs.Answer.{number_of, refusal_in, length_in};
ghost use Rattle.rows.specs.Groups.{document01};
ghost use Rattle.lengths.specs.Length.{LengthOf};
ghost use Rattle.lengths.specs.steps.Entry as entries;

use record::refusal::Refusal;

// What an entry's number tells: 0 and a length, or a refusal and 0. (No Result: `told` says of every number what is in it, of those too
// that have both, or a refusal that there is none of.)
#[derive(Clone, Copy)]
pub struct Length {
    pub refusal: u32,
    pub length: usize,
}

// What fewer than two bytes are refused with, 4 before 1. Of more the first counts alone.
#[tactic(auto, using(crate::proofs::Asking::of_no_byte, crate::proofs::Asking::of_outside_byte, crate::proofs::Asking::of_inside_byte))]
pub fn too_few(bytes: &[u8]) -> Refusal
    ensures { number_of result ≡ entries.too_few bytes.now }
{
    if bytes.is_empty() {
        return Refusal::ExhaustedInput;
    }
    match first::place_of(bytes[0]) {
        Some(_) => Refusal::ExhaustedInput,
        None => Refusal::FirstByteOutside,
    }
}

// What an entry tells.
pub fn told(entry: u32) -> Length
    ensures { (result.refusal ≡ entries.refusal_in entry) × (result.length ≡ entries.length_in entry) }
{
    Length {
        refusal: entry / 8,
        length: (entry % 8) as usize,
    }
}

// The same of a character of the table, which is a text: a byte an entry, where an enum or an Option would take more.
fn told_by(c: u8) -> Result<usize, Refusal>
    requires { IsTrue (entries.is_entry c) }
    ensures { (refusal_in result ≡ entries.refusal_in (entries.value_of c)) × (length_in result ≡ entries.length_in (entries.value_of c)) }
{
    match c {
        b'B' => Err(Refusal::InvalidOpcode),
        b'C' => Err(Refusal::InvalidOperand),
        _ => Ok(usize::from(c - b'0')),
    }
}

// The length that every accepted string has that begins with the first two bytes; or, if none is accepted, what long enough ones are
// refused with. 4 for a first byte outside, then 1 for fewer than two bytes.
#[tactic(auto, using(crate::proofs::Asking::few_right, crate::proofs::Asking::outside_right, crate::proofs::Asking::entry_told, crate::proofs::Asking::none_unknown, crate::proofs::Asking::some_known_at, crate::proofs::Asking::is_told, crate::proofs::Place::below))]
pub fn length_of(bytes: &[u8]) -> Result<usize, Refusal>
    ensures { LengthOf document01 bytes.now (refusal_in result) (length_in result) }
{
    if bytes.len() < 2 {
        return Err(too_few(bytes));
    }
    let Some(place) = first::place_of(bytes[0]) else {
        return Err(Refusal::FirstByteOutside);
    };
    told_by(table::character(place, usize::from(bytes[1])))
}
