// Each group's answer, delivered: functions that both decoders for C end with, so that neither has the other's code inside, nor saves
// registers that only another group uses. Bytes are passed on as they are from the first one on, by which they come in registers.
// (One function over the decoder that it calls would be three, since decoders take their bytes in three ways, and would be no plainer.)
ghost use Rattle.std.specs.Prelude.{◌≡◌, Bool, true, ◌/◌, ◌%◌, eqb, take, drop};
ghost use Rattle.rows.specs.Rows.{row74, row76, row78, row_7A, row_7B, row_7C, row_7D, row_7E, row_EB};
ghost use Rattle.rows.specs.Pairs.{two};
ghost use Rattle.rows.specs.Run.{refusal, run_row, decode_rows, decode_by};
ghost use Rattle.readers.specs.steps.Width.{width_of};
ghost use Rattle.decode_72.specs.steps.Added.{opcode_of};
ghost use Rattle.by_manual.specs.Changed.{change_at};
ghost use Rattle.by_manual.specs.Lists.{is_changed};
ghost use Rattle.by_manual.specs.Table.{by_manual, table_by};
ghost use Rattle.m16c_decode.specs.steps.Filled.{Small, Filled};
ghost use Rattle.m16c_decode.specs.steps.Behind.{behind_pairs};

use crate::deliver;
use crate::deliver::ENTRIES;
use decode_7c::{op7C, op7D, opEB};
use decode_72::{list, two};
use decode_74::{op7A, op7B, op7E, op74, op76, op78};
use readers::answer;
use record::refusal::Refusal;

pub(crate) fn fill_74(bs: &[u8], byte: bool, out: &mut [u32; ENTRIES], b: u8) -> u32
    requires { Small (run_row (row74 (width_of byte) (b / 16) (b % 16)) bs.now) }
    ensures { Filled (run_row (row74 (width_of byte) (b / 16) (b % 16)) bs.now) result out.new }
{
    deliver::fill(op74::decode_op74(&bs[0..], byte, b), out)
}

pub(crate) fn fill_76(bs: &[u8], byte: bool, out: &mut [u32; ENTRIES], b: u8) -> u32
    requires { Small (run_row (row76 (width_of byte) (b / 16) (b % 16)) bs.now) }
    ensures { Filled (run_row (row76 (width_of byte) (b / 16) (b % 16)) bs.now) result out.new }
{
    deliver::fill(op76::decode_op76(&bs[0..], byte, b), out)
}

pub(crate) fn fill_78(bs: &[u8], byte: bool, out: &mut [u32; ENTRIES], b: u8) -> u32
    requires { Small (run_row (row78 (width_of byte) (b / 16) (b % 16)) bs.now) }
    ensures { Filled (run_row (row78 (width_of byte) (b / 16) (b % 16)) bs.now) result out.new }
{
    deliver::fill(op78::decode_op78(&bs[0..], byte, b), out)
}

pub(crate) fn fill_7A(bs: &[u8], b: u8, out: &mut [u32; ENTRIES]) -> u32
    requires { Small (run_row (row_7A (b / 16) (b % 16)) bs.now) }
    ensures { Filled (run_row (row_7A (b / 16) (b % 16)) bs.now) result out.new }
{
    deliver::fill(op7A::decode_op7A(&bs[0..], b), out)
}

pub(crate) fn fill_7B(bs: &[u8], b: u8, out: &mut [u32; ENTRIES]) -> u32
    requires { Small (run_row (row_7B (b / 16) (b % 16)) bs.now) }
    ensures { Filled (run_row (row_7B (b / 16) (b % 16)) bs.now) result out.new }
{
    deliver::fill(op7B::decode_op7B(&bs[0..], b), out)
}

pub(crate) fn fill_7C(bs: &[u8], b: u8, out: &mut [u32; ENTRIES]) -> u32
    requires { Small (run_row (row_7C (b / 16) (b % 16)) bs.now) }
    ensures { Filled (run_row (row_7C (b / 16) (b % 16)) bs.now) result out.new }
{
    deliver::fill(op7C::decode_op7C(&bs[0..], b), out)
}

pub(crate) fn fill_7D(bs: &[u8], b: u8, out: &mut [u32; ENTRIES]) -> u32
    requires { Small (run_row (row_7D (b / 16) (b % 16)) bs.now) }
    ensures { Filled (run_row (row_7D (b / 16) (b % 16)) bs.now) result out.new }
{
    deliver::fill(op7D::decode_op7D(&bs[0..], b), out)
}

pub(crate) fn fill_7E(bs: &[u8], b: u8, out: &mut [u32; ENTRIES]) -> u32
    requires { Small (run_row (row_7E (b / 16) (b % 16)) bs.now) }
    ensures { Filled (run_row (row_7E (b / 16) (b % 16)) bs.now) result out.new }
{
    deliver::fill(op7E::decode_op7E(&bs[0..], b), out)
}

pub(crate) fn fill_EB(bs: &[u8], b: u8, out: &mut [u32; ENTRIES]) -> u32
    requires { Small (run_row (row_EB (b / 16) (b % 16)) bs.now) }
    ensures { Filled (run_row (row_EB (b / 16) (b % 16)) bs.now) result out.new }
{
    deliver::fill(opEB::decode_opEB(&bs[0..], b), out)
}

// One of the ten pairs of request A7.
pub(crate) fn fill_two(bs: &[u8], a: u8, out: &mut [u32; ENTRIES], b: u8) -> u32
    requires { Small (run_row (two (opcode_of a) (width_of (eqb (a % 2) 0)) (b / 16) (b % 16)) bs.now) }
    ensures { Filled (run_row (two (opcode_of a) (width_of (eqb (a % 2) 0)) (b / 16) (b % 16)) bs.now) result out.new }
{
    deliver::fill(two::decode_two(&bs[0..], a, b), out)
}

// Behind these pairs: a list of registers, or a first byte outside.
pub(crate) fn fill_list(a: u8, b: u8, out: &mut [u32; ENTRIES]) -> u32
    requires { Small (behind_pairs a b) }
    ensures { Filled (behind_pairs a b) result out.new }
{
    if decode_72::is_list(a) {
        return deliver::fill(list::decode_list(a, b), out);
    }
    deliver::fill(answer::refuse_for(Refusal::FirstByteOutside, 1), out)
}

pub(crate) fn fill_outside(out: &mut [u32; ENTRIES]) -> u32
    ensures { Filled (refusal 4 1) result out.new }
{
    deliver::fill(answer::refuse_for(Refusal::FirstByteOutside, 1), out)
}

// Fewer than two bytes stand at the place: both readings say the same of them.
pub(crate) fn fill_few(image: &[u8], at: usize, out: &mut [u32; ENTRIES]) -> u32
    requires { Small (decode_rows (take 1 (drop at image.now))) }
    ensures { (manual : Bool) → Filled (decode_by (table_by manual) (take 1 (drop at image.now))) result out.new }
{
    deliver::fill(decode::decode_few(image, at), out)
}

// One of the rows that request A9 changes: the code has one.
pub(crate) fn fill_changed(bs: &[u8], a: u8, out: &mut [u32; ENTRIES], b: u8) -> u32
    requires { (is_changed (change_at a (b / 16) (b % 16)) ≡ true) × Small (run_row (by_manual.row_at a b) bs.now) }
    ensures { Filled (run_row (by_manual.row_at a b) bs.now) result out.new }
{
    deliver::fill(decode_changed::decode_changed(&bs[0..], a, b), out)
}
