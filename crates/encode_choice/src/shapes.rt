// Codes that several opcodes have in common, by the high nibble h or the like; n is the code of an operand. (f ≤ 0xFE, so that the other byte of
// its pair is one too, stays a premise here: of a type of its own every arm of choose_by would build a value.)
#![tactic(auto, unfolding(record::specs::Same::same_name), using(record::proofs::Equal::equal))]

ghost use Rattle.std.specs.Prelude.{◌≡◌, ◌≤◌, ◌+◌, ◌*◌, ◌/◌, ◌%◌};
ghost use Rattle.encode_choice.specs.steps.Choose as choice;
ghost use Rattle.encode_choice.specs.steps.Choose.{code_of};
ghost use Rattle.encode_choice.specs.steps.Coded.{coded};

use crate::{Asked, Code, name_sets, names};
use record::{Operand, Size, Width};

// Which of a pair of first bytes: the second one is for words.
fn word(w: Width) -> u8
    ensures { (result ≡ choice.word w) × (result ≤ 1) }
{
    match w {
        Width::B => 0,
        Width::W => 1,
        Width::None => 1,
    }
}

// The code of an operand in the low nibble, behind h. (A u64, as every second byte is: of names that do not go together it may be more than a byte.)
pub fn nibbles(h: u8, o: Operand) -> u64
    ensures { result ≡ 16 * h + code_of o }
{
    16 * u64::from(h) + u64::from(name_sets::code_of(o))
}

// No operand in the second byte.
pub(crate) fn only(f: u8, b: u64, q: Asked) -> Option<Code>
    requires { f ≤ 0xFE }
    ensures { result ≡ coded (choice.only f b q) }
{
    Some(Code {
        first: f + word(q.width),
        second: b,
    })
}

// The code of an operand in the low nibble.
fn general(f: u8, h: u8, w: Width, o: Operand) -> Option<Code>
    requires { f ≤ 0xFE }
    ensures { result ≡ coded (choice.general f h w o) }
{
    Some(Code {
        first: f + word(w),
        second: nibbles(h, o),
    })
}

// Operand 0 is G(n).
pub(crate) fn unary(f: u8, h: u8, q: Asked) -> Option<Code>
    requires { f ≤ 0xFE }
    ensures { result ≡ coded (choice.unary f h q) }
{
    general(f, h, q.width, q.op0)
}

// Operand 1 is G(n).
pub(crate) fn binary(f: u8, h: u8, q: Asked) -> Option<Code>
    requires { f ≤ 0xFE }
    ensures { result ≡ coded (choice.binary f h q) }
{
    general(f, h, q.width, q.op1)
}

// Both for rows that are not document 01's, of any byte and nibble: f tells its pair.
pub fn unary_of(f: u8, h: u8, q: Asked) -> Option<Code>
    ensures { result ≡ coded (choice.unary (f / 2 * 2) (h % 16) q) }
{
    unary(f / 2 * 2, h % 16, q)
}

pub fn binary_of(f: u8, h: u8, q: Asked) -> Option<Code>
    ensures { result ≡ coded (choice.binary (f / 2 * 2) (h % 16) q) }
{
    binary(f / 2 * 2, h % 16, q)
}

// Operands 0 and 1 are G(h) and G(n).
pub(crate) fn twice(f: u8, q: Asked) -> Option<Code>
    requires { f ≤ 0xFE }
    ensures { result ≡ coded (choice.twice f q) }
{
    binary(f, name_sets::code_of(q.op0), q)
}

// An immediate form, or one of two operands.
pub(crate) fn arithmetic(a: u8, h: u8, f: u8, q: Asked) -> Option<Code>
    requires { (a ≤ 0xFE) × (f ≤ 0xFE) }
    ensures { result ≡ coded (choice.arithmetic a h f q) }
{
    if names::is_wide(q.op0) {
        binary(a, h, q)
    } else {
        twice(f, q)
    }
}

// An immediate alone, or operand 0 is G(n).
pub(crate) fn imm_or_unary(b: u64, f: u8, h: u8, q: Asked) -> Option<Code>
    requires { f ≤ 0xFE }
    ensures { result ≡ coded (choice.imm_or_unary b f h q) }
{
    if names::is_wide(q.op0) {
        only(0x7C, b, q)
    } else {
        unary(f, h, q)
    }
}

// 7E: operand 0 is T(n).
pub(crate) fn bit(h: u8, q: Asked) -> Option<Code>
    ensures { result ≡ coded (choice.bit h q) }
{
    Some(Code {
        first: 0x7E,
        second: nibbles(h, q.op0),
    })
}

// The condition of a flag, 7D D, or of a bit.
pub(crate) fn condition(n: u8, q: Asked) -> Option<Code>
    ensures { result ≡ coded (choice.condition n q) }
{
    match q.width {
        Width::W => Some(Code {
            first: 0x7D,
            second: 0xD0 + u64::from(n),
        }),
        Width::B => bit(2, q),
        Width::None => bit(2, q),
    }
}

// DADD and the like: an immediate, or registers.
pub(crate) fn decimal(i: u8, q: Asked) -> Option<Code>
    ensures { result ≡ coded (choice.decimal i q) }
{
    let i = u64::from(i);
    if names::is_wide(q.op0) {
        only(0x7C, 0xEC + i, q)
    } else {
        only(0x7C, 0xE4 + i, q)
    }
}

// MOVLL and the like: to R0L, which comes first, or from it.
pub(crate) fn half(h: u8, q: Asked) -> Option<Code>
    requires { h ≤ 3 }
    ensures { result ≡ coded (choice.half h q) }
{
    if q.op1 == Operand::R0L {
        return Some(Code {
            first: 0x7C,
            second: nibbles(h, q.op0),
        });
    }
    if q.op0 == Operand::R0L {
        return Some(Code {
            first: 0x7C,
            second: nibbles(8 + h, q.op1),
        });
    }
    None
}

// STE and LDE: the operand beside G(n).
pub(crate) fn far(o: Operand) -> u8
    ensures { (result ≡ choice.far o) × (result ≤ 2) }
{
    match o {
        Operand::Abs20 => 0,
        Operand::Disp20_A0 => 1,
        _ => 2,
    }
}

fn long(s: u8, q: Asked) -> Option<Code>
    ensures { result ≡ coded (choice.long s q) }
{
    let pair = u64::from(s) + u64::from(name_sets::code_of(q.op1));
    if q.op0 == Operand::Imm4 {
        return Some(Code {
            first: 0xEB,
            second: 16 * (8 + pair) + u64::from(q.number),
        });
    }
    Some(Code {
        first: 0xEB,
        second: 16 * pair + 1,
    })
}

// SHL and SHA: at size L a pair, by R1H or by Imm4.
pub(crate) fn shift(h: u8, s: u8, q: Asked) -> Option<Code>
    ensures { result ≡ coded (choice.shift h s q) }
{
    match q.size {
        Size::L => long(s, q),
        Size::None => binary(0x74, h, q),
        Size::B => binary(0x74, h, q),
        Size::W => binary(0x74, h, q),
    }
}
