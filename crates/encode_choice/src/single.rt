// Codes that one opcode has, or two.
#![tactic(auto, unfolding(crate::specs::steps::Choose::choose_by, record::specs::Same::same_name), using(record::proofs::Equal::equal))]

ghost use Rattle.std.specs.Prelude.{◌≡◌, ◌≤◌};
ghost use Rattle.record.specs.declared.Opcode.TheVariants.{ADD, EXTS, INT, LDC, LDE, MOV, MOVA, PUSHA, STC, STE};
ghost use Rattle.encode_rules.specs.steps.Direct.{code};
ghost use Rattle.encode_choice.specs.steps.Choose as choice;
ghost use Rattle.encode_choice.specs.steps.Choose.{choose_by};
ghost use Rattle.encode_choice.specs.steps.Coded.{coded};

use crate::{Asked, Code, name_sets, names, shapes};
use record::Operand;

pub fn fixed(a: u8, b: u64) -> Option<Code>
    ensures { result ≡ coded (code a b) }
{
    Some(Code {
        first: a,
        second: b,
    })
}

pub(crate) fn add(q: Asked) -> Option<Code>
    ensures { result ≡ coded (choose_by ADD q) }
{
    if q.op1 == Operand::SP {
        if names::is_wide(q.op0) {
            return shapes::only(0x7C, 0xEB, q);
        }
        return None;
    }
    shapes::arithmetic(0x76, 4, 0xA0, q)
}

pub(crate) fn exts(q: Asked) -> Option<Code>
    ensures { result ≡ coded (choose_by EXTS q) }
{
    if q.op0 == Operand::R0 {
        return fixed(0x7C, 0xF3);
    }
    fixed(0x7C, 0x60 + u64::from(name_sets::code_of(q.op0)))
}

pub(crate) fn int(q: Asked) -> Option<Code>
    ensures { result ≡ coded (choose_by INT q) }
{
    fixed(0xEB, 0xC0 + u64::from(q.number))
}

// PUSHM and POPM: the list is the second byte.
pub(crate) fn list(a: u8, q: Asked) -> Option<Code>
    ensures { result ≡ coded (code a q.number) }
{
    fixed(a, u64::from(q.number))
}

// JMPI and JSRI, from 0 or 10 on; by the manual words from 20 or 30 on.
pub fn jump(b: u8, q: Asked) -> Option<Code>
    ensures { result ≡ coded (choice.jump b q) }
{
    fixed(0x7D, u64::from(b) + u64::from(name_sets::code_of(q.op0)))
}

pub(crate) fn ldc(q: Asked) -> Option<Code>
    ensures { result ≡ coded (choose_by LDC q) }
{
    fixed(0xEB, 16 * u64::from(name_sets::code_of(q.op1)))
}

// PUSHC and POPC, by the low nibble.
pub(crate) fn control(n: u8, q: Asked) -> Option<Code>
    ensures { result ≡ coded (choice.control n q) }
{
    fixed(
        0xEB,
        16 * u64::from(name_sets::code_of(q.op0)) + u64::from(n),
    )
}

pub(crate) fn stc(q: Asked) -> Option<Code>
    ensures { result ≡ coded (choose_by STC q) }
{
    fixed(0x7B, shapes::nibbles(8 + name_sets::code_of(q.op1), q.op0))
}

pub(crate) fn lde(q: Asked) -> Option<Code>
    ensures { result ≡ coded (choose_by LDE q) }
{
    shapes::binary(0x74, 8 + shapes::far(q.op0), q)
}

pub(crate) fn ste(q: Asked) -> Option<Code>
    ensures { result ≡ coded (choose_by STE q) }
{
    shapes::unary(0x74, shapes::far(q.op1), q)
}

pub(crate) fn mov(q: Asked) -> Option<Code>
    ensures { result ≡ coded (choose_by MOV q) }
{
    if q.op0 == Operand::Disp8_SP {
        shapes::binary(0x74, 0xB, q)
    } else {
        shapes::arithmetic(0x74, 0xC, 0x72, q)
    }
}

pub(crate) fn mova(q: Asked) -> Option<Code>
    ensures { result ≡ coded (choose_by MOVA q) }
{
    fixed(0xEB, shapes::nibbles(name_sets::code_of(q.op1), q.op0))
}

pub(crate) fn pusha(q: Asked) -> Option<Code>
    ensures { result ≡ coded (choose_by PUSHA q) }
{
    fixed(0x7D, 0x90 + u64::from(name_sets::code_of(q.op0)))
}
