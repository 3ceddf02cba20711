// A plan's bytes in a buffer.
ghost use Rattle.std.specs.Prelude.{◌≡◌, ◌+◌, ◌≤◌, length};
ghost use Rattle.record.specs.Answer.{refusal_in, length_in};
ghost use Rattle.laws.specs.Over.{over, put};
ghost use Rattle.encode_rules.specs.steps.Digits.{digits};
ghost use Rattle.encode_rules.specs.Says.{bytes};
ghost use Rattle.encode_rules.specs.Written.{outcome, written};
ghost use Rattle.encode.specs.steps.Plan.{planned};

use crate::plan::{Number, Plan};
use record::refusal::Refusal;

// A number's bytes, low first, from a place on.
fn write_number(out: &mut [u8], at: usize, number: Number)
    requires { at + number.count ≤ length out.old }
    ensures { out.new ≡ put at (digits number.count number.value) out.old }
{
    let mut rest = number.value;
    for k in 0..usize::from(number.count) {
        out[at + k] = (rest % 256) as u8;
        rest /= 256;
    }
}

// A plan's bytes over the first of what is passed in.
fn write_plan(out: &mut [u8], p: Plan)
    requires { 2 + p.number.count + p.rest.count ≤ length out.old }
    ensures { out.new ≡ over (planned p) out.old }
{
    out[0] = p.first;
    out[1] = p.second;
    write_number(out, 2, p.number);
    let behind = 2 + usize::from(p.number.count);
    write_number(out, behind, p.rest);
}

// A plan's bytes from a place of a buffer on: the rest of the buffer is passed to the writer.
#[tactic(auto, using(crate::proofs::Put::planned_length))]
pub(crate) fn write_at(buf: &mut [u8], place: usize, p: Plan) -> Result<usize, Refusal>
    ensures { outcome (refusal_in result) (length_in result) buf.new ≡ written (bytes (planned p)) buf.old place }
{
    let n = p.length();
    if buf.len() < place || buf.len() - place < n {
        return Err(Refusal::TooLittleRoom);
    }
    write_plan(&mut buf[place..], p);
    Ok(n)
}
