// The groups of which a reading by the manual changes rows: a changed row goes before the group's own, by the second byte b.
// (One function for all six would take the three calls of each as closures, and be no shorter.)
ghost use Rattle.std.specs.Prelude.{◌/◌, ◌%◌, ◌≡◌};
ghost use Rattle.rows.specs.Rows.{row74, row76, row_7A, row_7C, row_7D, row_EB};
ghost use Rattle.rows.specs.Run.{run_row};
ghost use Rattle.record.specs.Answer.{answer_of};
ghost use Rattle.record.specs.declared.Width.TheVariants.{B};
ghost use Rattle.readers.specs.steps.Width.{width_of};
ghost use Rattle.by_manual.specs.Changed.{change74, change76, change_7A, change_7C, change_7D, change_EB};
ghost use Rattle.decode.specs.steps.Rows.{row_by};

use decode_7c::{op7C, op7D, opEB};
use decode_74::{op7A, op74, op76};
use decode_changed::{asked, general, within};
use readers::answer::Decoded;

pub(crate) fn decode_74(manual: bool, bs: &[u8], byte: bool, b: u8) -> Decoded
    ensures { answer_of result ≡ run_row (row_by (change74 (width_of byte) (b / 16) (b % 16)) manual (row74 (width_of byte) (b / 16) (b % 16))) bs.now }
{
    if manual && asked::in_74(b) {
        return general::to_stack(bs, byte, b);
    }
    op74::decode_op74(bs, byte, b)
}

pub(crate) fn decode_76(manual: bool, bs: &[u8], byte: bool, b: u8) -> Decoded
    ensures { answer_of result ≡ run_row (row_by (change76 (width_of byte) (b / 16) (b % 16)) manual (row76 (width_of byte) (b / 16) (b % 16))) bs.now }
{
    if manual && asked::in_76(b) {
        return general::alone(bs, byte, b);
    }
    op76::decode_op76(&bs[0..], byte, b)
}

pub(crate) fn decode_7A(manual: bool, bs: &[u8], b: u8) -> Decoded
    ensures { answer_of result ≡ run_row (row_by (change_7A (b / 16) (b % 16)) manual (row_7A (b / 16) (b % 16))) bs.now }
{
    if manual && asked::in_7A(b) {
        return general::load_control(bs, b);
    }
    op7A::decode_op7A(bs, b)
}

pub(crate) fn decode_7C(manual: bool, bs: &[u8], b: u8) -> Decoded
    ensures { answer_of result ≡ run_row (row_by (change_7C B (b / 16) (b % 16)) manual (row_7C (b / 16) (b % 16))) bs.now }
{
    if manual && asked::in_7C(b) {
        return general::mul_immediate(bs, true, b);
    }
    op7C::decode_op7C(bs, b)
}

pub(crate) fn decode_7D(manual: bool, bs: &[u8], b: u8) -> Decoded
    ensures { answer_of result ≡ run_row (row_by (change_7D (b / 16) (b % 16)) manual (row_7D (b / 16) (b % 16))) bs.now }
{
    if manual && asked::in_7D(b) {
        return decode_changed::decode_7D(bs, b);
    }
    op7D::decode_op7D(bs, b)
}

pub(crate) fn decode_EB(manual: bool, bs: &[u8], b: u8) -> Decoded
    ensures { answer_of result ≡ run_row (row_by (change_EB (b / 16) (b % 16)) manual (row_EB (b / 16) (b % 16))) bs.now }
{
    if manual && asked::in_EB(b) {
        return within::flag(b);
    }
    opEB::decode_opEB(bs, b)
}
