// Decoding at a place of an image: the first byte chooses the group; the reading, whether changed rows go before its own.

#![tactic(auto)]

mod groups; // the groups of which a reading by the manual changes rows

ghost use Rattle.std.specs.Prelude.{◌/◌, ◌%◌, ◌≡◌, Bool, take, drop};
ghost use Rattle.laws.specs.Choice.{pick};
ghost use Rattle.record.specs.Answer.{answer_of};
ghost use Rattle.rows.specs.Groups.{known, document01};
ghost use Rattle.rows.specs.Run.{decode_by, decode_rows, refusal, run_row};
ghost use Rattle.by_manual.specs.Changed.{change_at};
ghost use Rattle.by_manual.specs.Table.{by_manual, table_by};
ghost use Rattle.decode.specs.steps.Rows.{row_by};

use decode_74::{op7B, op7E, op78};
use readers::answer;
use readers::answer::Decoded;
use record::refusal::Refusal;

#[tactic(auto, using(crate::proofs::First::known_told))]
fn in_part(a: u8) -> bool
    ensures { result ≡ known a }
{
    match a {
        0x74..=0x7E | 0xEB => true,
        _ => decode_72::is_added(a),
    }
}

// The group of a first byte, by the second byte b.
#[tactic(auto, unfolding(rows::specs::Groups::known, rows::specs::Groups::rows_of, by_manual::specs::Changed::change_at))]
fn decode_code(manual: bool, bs: &[u8], a: u8, b: u8) -> Decoded
    ensures { answer_of result ≡ pick (known a) (run_row (row_by (change_at a (b / 16) (b % 16)) manual (document01.row_at a b)) bs.now) (refusal 4 1) }
{
    match a {
        0x74 | 0x75 => groups::decode_74(manual, bs, a % 2 == 0, b),
        0x76 | 0x77 => groups::decode_76(manual, bs, a % 2 == 0, b),
        0x78 | 0x79 => op78::decode_op78(&bs[0..], a % 2 == 0, b),
        0x7A => groups::decode_7A(manual, bs, b),
        0x7B => op7B::decode_op7B(bs, b),
        0x7C => groups::decode_7C(manual, bs, b),
        0x7D => groups::decode_7D(manual, bs, b),
        0x7E => op7E::decode_op7E(bs, b),
        0xEB => groups::decode_EB(manual, bs, b),
        _ => decode_72::decode_added(bs, a, b),
    }
}

// As if one byte stood at the place, or none: readings differ only in codes, of two.
#[tactic(auto, using(crate::proofs::Bytes::few_told, crate::proofs::Readings::known_by))]
pub fn decode_few(image: &[u8], at: usize) -> Decoded
    ensures { (manual : Bool) → answer_of result ≡ decode_by (table_by manual) (take 1 (drop at image.now)) }
{
    match image.get(at) {
        None => answer::refuse_for(Refusal::ExhaustedInput, 0),
        Some(a) if in_part(*a) => answer::refuse_for(Refusal::ExhaustedInput, 1),
        Some(_) => answer::refuse_for(Refusal::FirstByteOutside, 1),
    }
}

// The instruction at a place of an image, by document 01 or by the manual. (A bool, and no enum: that is passed by its address, which costs the sweep.) A place at or past its end is an empty string: refusal 1, no byte taken.
pub fn decode_by(manual: bool, image: &[u8], at: usize) -> Decoded
    ensures { answer_of result ≡ decode_by (table_by manual) (drop at image.now) }
{
    // (A test, and no `get`: the edit test_reversed turns it round.)
    if image.len() < at {
        return decode_few(image, at);
    }
    let bs = &image[at..];
    // (No slice pattern: by one the first byte is read into two registers, and a sweep takes an instruction more for each of its own.)
    if bs.len() < 2 {
        return decode_few(image, at);
    }
    decode_code(manual, bs, bs[0], bs[1])
}

// As document 01 has it. (The two have a promise by name each, which PROMISES.md lists.)
pub fn decode(image: &[u8], at: usize) -> Decoded
    ensures { answer_of result ≡ decode_rows (drop at image.now) }
{
    decode_by(false, image, at)
}

// As the manual has it, where request A9 says so.
pub fn decode_manual(image: &[u8], at: usize) -> Decoded
    ensures { answer_of result ≡ decode_by by_manual (drop at image.now) }
{
    decode_by(true, image, at)
}
