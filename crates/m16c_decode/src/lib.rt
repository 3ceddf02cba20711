// The decoders for C, a crate of their own. Both choose the group by the first byte, and the group's function ends them: two functions
// that only call share all of their code that is big, and cost less than one that has the groups inside.
#![tactic(auto)]

mod deliver; // an answer as numbers
mod groups; // each group's answer, delivered

ghost use Rattle.rows.specs.Groups.{document01};
ghost use Rattle.by_manual.specs.Table.{by_manual, table_by};
ghost use Rattle.m16c_decode.specs.Decoded.{Decodes};
ghost use Rattle.m16c_decode.specs.steps.Coded.{coded};
ghost use Rattle.m16c_decode.specs.steps.Filled.{Small, Filled};

use crate::deliver::ENTRIES;
use decode_changed::asked;
use record::refusal::Refusal;

// The group of a first byte, by the second byte b: by the manual, a changed code is asked for in its first byte's arm.
#[tactic(auto, unfolding(rows::specs::Groups::known, rows::specs::Groups::rows_of, by_manual::specs::Changed::change_at))]
fn fill_code<const MANUAL: bool>(bs: &[u8], a: u8, b: u8, out: &mut [u32; ENTRIES]) -> u32
    requires { Small (coded (table_by MANUAL) a b bs.now) }
    ensures { Filled (coded (table_by MANUAL) a b bs.now) result out.new }
{
    match a {
        0x74 | 0x75 => {
            if MANUAL && asked::in_74(b) {
                return groups::fill_changed(bs, a, out, b);
            }
            groups::fill_74(bs, a % 2 == 0, out, b)
        }
        0x76 | 0x77 => {
            if MANUAL && asked::in_76(b) {
                return groups::fill_changed(bs, a, out, b);
            }
            groups::fill_76(bs, a % 2 == 0, out, b)
        }
        0x78 | 0x79 => groups::fill_78(bs, a % 2 == 0, out, b),
        0x7A => {
            if MANUAL && asked::in_7A(b) {
                return groups::fill_changed(bs, a, out, b);
            }
            groups::fill_7A(bs, b, out)
        }
        0x7B => groups::fill_7B(bs, b, out),
        0x7C => {
            if MANUAL && asked::in_7C(b) {
                return groups::fill_changed(bs, a, out, b);
            }
            groups::fill_7C(bs, b, out)
        }
        0x7D => {
            if MANUAL && asked::in_7D(b) {
                return groups::fill_changed(bs, a, out, b);
            }
            groups::fill_7D(bs, b, out)
        }
        0x7E => groups::fill_7E(bs, b, out),
        0xEB => {
            if MANUAL && asked::in_EB(b) {
                return groups::fill_changed(bs, a, out, b);
            }
            groups::fill_EB(bs, b, out)
        }
        _ => {
            if 0xC1 < a {
                return groups::fill_list(a, b, out);
            }
            if decode_72::is_two(a) {
                return groups::fill_two(bs, a, out, b);
            }
            groups::fill_outside(out)
        }
    }
}

// The instruction at a place of an image, by one reading.
fn decode_at<const MANUAL: bool>(image: &[u8], at: usize, out: &mut [u32]) -> u32
    ensures { Decodes (table_by MANUAL) image.now at out.old result out.new }
{
    let Some(entries) = out.first_chunk_mut::<{ ENTRIES }>() else {
        return u32::from(Refusal::TooLittleRoom);
    };
    let Some(bs) = image.get(at..) else {
        return groups::fill_few(image, at, entries);
    };
    let [a, b, ..] = bs else {
        return groups::fill_few(image, at, entries);
    };
    fill_code::<MANUAL>(bs, *a, *b, entries)
}

// Decodes at a place of an image. Returns the refusal, 0 for none, and fills twenty entries: taken, opcode, size, width, three
// operands, imm_wide, dispabs, first, length, marked, dropped, then offset and width of the bytes that first, dispabs and imm_wide were
// read from, and how many registers a list names. With fewer than twenty entries it returns 6 and touches none.
pub fn m16c_decode(image: &[u8], at: usize, out: &mut [u32]) -> u32
    ensures { Decodes document01 image.now at out.old result out.new }
{
    decode_at::<false>(image, at, out)
}

// Decodes as m16c_decode does, by the manual. The record does not say so: encode it by m16c_encode_manual.
pub fn m16c_decode_manual(image: &[u8], at: usize, out: &mut [u32]) -> u32
    ensures { Decodes by_manual image.now at out.old result out.new }
{
    decode_at::<true>(image, at, out)
}

// For the small archive, which has the decoder once: either reading. (A bool, as in `decode::decode_by`.)
pub fn decode_into(manual: bool, image: &[u8], at: usize, out: &mut [u32]) -> u32
    ensures { Decodes (table_by manual) image.now at out.old result out.new }
{
    let Some(entries) = out.first_chunk_mut::<{ ENTRIES }>() else {
        return u32::from(Refusal::TooLittleRoom);
    };
    deliver::fill(decode::decode_by(manual, image, at), entries)
}
