// The choice of a code by each reading: what the rows that request A9 changes add to document 01's.

#![tactic(auto)]

mod sets; // the names that go with an opcode in a changed row
mod codes; // the codes of the changed rows

ghost use Rattle.std.specs.Prelude.{◌≡◌};
ghost use Rattle.encode_choice.specs.steps.Coded.{coded};
ghost use Rattle.encode_added.specs.steps.Choose as choice;

use encode_choice::{Asked, Code};
use record::Opcode;

// A code, if there is one, and whether it is all: then operand 0's number is part of it, and no bytes follow. (Both are told, a code or none.)
#[derive(Clone, Copy)]
pub struct Chosen {
    pub code: Option<Code>,
    pub whole: bool,
}

// (A bool for the reading: an enum is passed by its address, see docs/DECISIONS.md.)
fn changes(manual: bool, o: Opcode, q: Asked) -> bool
    ensures { result ≡ choice.changes manual o q }
{
    manual && sets::goes(o, q)
}

// The code for what is asked; n is the number of operand 0.
#[tactic(auto, unfolding(crate::specs::steps::Choose::choose_by, crate::specs::steps::Choose::is_whole))]
pub fn choose(manual: bool, o: Opcode, q: Asked, n: u32) -> Chosen
    ensures { (result.code ≡ coded (choice.choose_by manual o q n)) × (result.whole ≡ choice.is_whole manual o q) }
{
    if changes(manual, o, q) {
        return Chosen {
            code: codes::code_by(o, q, n),
            whole: codes::is_numbered(o),
        };
    }
    Chosen {
        code: encode_choice::choose(o, q),
        whole: false,
    }
}
