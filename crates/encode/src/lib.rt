// The encoder: the shortest bytes that encode a record.

#![tactic(auto)]

mod plan; // a code and what stands behind it
mod key; // what counts of a record
mod counts; // the bytes that a name asks for
mod condition; // the byte of a condition
mod layout; // the numbers behind a code
mod write; // a plan's bytes in a buffer

ghost use Rattle.std.specs.Prelude.{◌≡◌};
ghost use Rattle.record.specs.Answer.{refusal_in, length_in};
ghost use Rattle.by_manual.specs.Table.{table_by};
ghost use Rattle.encode_added.specs.steps.Choose.{encoded_by};
ghost use Rattle.encode_rules.specs.Written.{outcome, Encodes};
ghost use Rattle.encode.specs.steps.Plan.{found_by};

use encode_choice::asks;
use plan::{Number, Plan};
use record::refusal::Refusal;
use record::{Operand, Record};

// How the code that a reading chooses encodes a record: its row has the names that were asked for, and no row has a third. (A bool for the
// reading: an enum is passed by its address, see docs/DECISIONS.md.)
fn find(r: Record, manual: bool) -> Option<Plan>
    ensures { found_by result ≡ encoded_by manual r }
{
    if r.op2 != Operand::Nothing {
        return None;
    }
    let k = key::key_of(r);
    let q = asks::asked(k);
    let chosen = encode_added::choose(manual, k.opcode, q, k.number0);
    let code = chosen.code?;
    let a = code.first;
    let b = code.second as u8;
    if chosen.whole {
        return Some(Plan {
            first: a,
            second: b,
            number: Number::NONE,
            rest: Number::NONE,
        });
    }
    layout::plan_of(a, b, q, k)
}

// The shortest byte string, then the first in byte order, of all that decode by unmarked rows of a reading to the same instruction, from a
// place of a buffer on: its length. 5 if there is none, and then 6 with too little room; refused, it touches nothing.
#[tactic(auto, using(crate::proofs::Leaves::encodes, crate::proofs::Leaves::none_left))]
pub fn encode(r: Record, manual: bool, buf: &mut [u8], place: usize) -> Result<usize, Refusal>
    ensures { Encodes (table_by manual) r buf.old place (outcome (refusal_in result) (length_in result) buf.new) }
{
    match find(r, manual) {
        Some(plan) => write::write_at(buf, place, plan),
        None => Err(Refusal::NoString),
    }
}
