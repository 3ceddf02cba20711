// Which size and names go with an opcode: those that it has in an unmarked row.
#![tactic(auto, unfolding(record::specs::Same::same_name))]

ghost use Rattle.std.specs.Prelude.{◌≡◌, ltb};
ghost use Rattle.laws.specs.Choice.{both};
ghost use Rattle.encode_choice.specs.steps.Forms.{form_of, number_limit, goes_with};
ghost use Rattle.encode_choice.specs.steps.NameSet.{all_in};

use crate::name_sets::Sets;
use crate::{Asked, name_sets, sets};
use record::{Opcode, Operand, Width};

pub fn all_in(s: Sets, q: Asked) -> bool
    ensures { result ≡ all_in s.0 s.1 q }
{
    sets::has_size(s.0, q.size) && sets::has(s.0, q.op0) && sets::has(s.1, q.op1)
}

// A number that is part of the code, of Imm4, of RegList or of Imm8.
fn number_goes(q: Asked) -> bool
    ensures { result ≡ ltb q.number (number_limit q.op0) }
{
    match q.op0 {
        Operand::Imm4 => q.number < 16,
        Operand::RegList => q.number < 256,
        _ => q.number < 64,
    }
}

// At no width.
fn none_goes(s: Sets, q: Asked) -> bool
    ensures { result ≡ both (all_in s.0 s.1 q) (ltb q.number (number_limit q.op0)) }
{
    all_in(s, q) && number_goes(q)
}

// The sets are asked for where the width is known: a table for each is quicker than one that is found by the width.
pub fn goes_with(o: Opcode, q: Asked) -> bool
    ensures { result ≡ goes_with (form_of o) q }
{
    let form = name_sets::form_of(o);
    match q.width {
        Width::B => all_in(name_sets::at_b(form), q),
        Width::W => all_in(name_sets::at_w(form), q),
        Width::None => none_goes(name_sets::at_none(form), q),
    }
}
