// The length from two bytes for C, a crate of its own: by the table in words, since a constant table is copied before it is read.

#![tactic(auto)]

mod words;

ghost use Rattle.std.specs.Prelude.{◌≡◌};
ghost use Rattle.rows.specs.Groups.{document01};
ghost use Rattle.lengths.specs.Length.{LengthOf};
ghost use Rattle.lengths.specs.steps.Entry.{entry_of};

use record::refusal::{Refusal, leave};

// Of a first byte outside 0, which is no entry of the table.
#[tactic(auto, using(crate::proofs::Fields::short, crate::proofs::Fields::each_field))]
fn entry_of(first: u8, second: u8) -> u32
    ensures { result ≡ entry_of first second }
{
    let word = words::word_of(second);
    ((word >> words::shift_of(first)) % 32) as u32
}

// The length that every instruction has that m16c_decode accepts and that begins with the first two bytes; more bytes do not count, and by
// the manual some lengths are others. Returns 0 and leaves the length; or a refusal and 0: 4 for a first byte outside, then 1 for fewer than
// two bytes, else 2 or 3 where no bytes behind these two make an instruction.
#[tactic(auto, using(lengths::proofs::Asking::few_right, lengths::proofs::Asking::outside_right, lengths::proofs::Asking::entry_told, lengths::proofs::Asking::zero_unknown, lengths::proofs::Asking::some_known, lengths::proofs::Asking::of_known))]
pub fn m16c_length(bytes: &[u8], length: &mut usize) -> u32
    ensures { LengthOf document01 bytes.now result length.new }
{
    if bytes.len() < 2 {
        return leave(Err(lengths::too_few(bytes)), length);
    }
    let entry = entry_of(bytes[0], bytes[1]);
    if entry == 0 {
        return leave(Err(Refusal::FirstByteOutside), length);
    }
    let told = lengths::told(entry);
    *length = told.length;
    told.refusal
}
