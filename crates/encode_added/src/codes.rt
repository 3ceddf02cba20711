// The codes of the changed rows.
ghost use Rattle.std.specs.Prelude.{◌≡◌, ◌≤◌, ◌<◌};
ghost use Rattle.encode_choice.specs.steps.Coded.{coded};
ghost use Rattle.encode_added.specs.steps.Entries as entries;
ghost use Rattle.encode_added.specs.steps.Choose as choice;

use encode_choice::{Asked, Code, name_sets, shapes, single};
use record::Opcode;

// LDC: the control register and G(n).
fn load(q: Asked) -> Option<Code>
    ensures { result ≡ coded (entries.load q) }
{
    single::fixed(0x7A, shapes::nibbles(8 + name_sets::code_of(q.op1), q.op0))
}

// A number below 8, by the code of 0 and the distance to the next.
fn below8(a: u8, b: u8, step: u8, n: u32) -> Option<Code>
    ensures { result ≡ coded (choice.below a b step n) }
{
    if n < 8 {
        return single::fixed(a, u64::from(b) + u64::from(step) * u64::from(n));
    }
    None
}

// A nibble sign-extended to 32 bits.
fn extended(n: u32) -> u32
    requires { n < 16 }
    ensures { result ≡ choice.extended n }
{
    if n < 8 {
        return n;
    }
    0xFFFFFFF0 + n
}

// ADD to SP: a number from -8 to 7, as its low nibble.
fn nibble(n: u32) -> Option<Code>
    ensures { result ≡ coded (choice.signed n) }
{
    let low = n % 16;
    if n == extended(low) {
        return single::fixed(0x7D, 0xB0 + u64::from(low));
    }
    None
}

#[tactic(auto, unfolding(crate::specs::steps::Entries::entry_of))]
pub(crate) fn is_numbered(o: Opcode) -> bool
    ensures { result ≡ choice.is_numbered (entries.entry_of o).codes }
{
    matches!(o, Opcode::FSET | Opcode::FCLR | Opcode::LDIPL | Opcode::ADD)
}

#[tactic(auto, unfolding(crate::specs::steps::Entries::entry_of))]
pub(crate) fn code_by(o: Opcode, q: Asked, n: u32) -> Option<Code>
    ensures { result ≡ coded (choice.code_by (entries.entry_of o).codes q n) }
{
    match o {
        Opcode::DIVX => shapes::unary_of(0x76, 9, q),
        Opcode::DIVU => shapes::unary_of(0x76, 0xC, q),
        Opcode::ADCF => shapes::unary_of(0x76, 0xE, q),
        Opcode::MULU => shapes::binary_of(0x7C, 4, q),
        Opcode::MUL => shapes::binary_of(0x7C, 5, q),
        Opcode::MOV => shapes::unary_of(0x74, 3, q),
        Opcode::LDC => load(q),
        Opcode::JMPI => single::jump(0x20, q),
        Opcode::JSRI => single::jump(0x30, q),
        Opcode::BMGE => single::fixed(0x7D, 0xDA),
        Opcode::BMNO => single::fixed(0x7D, 0xDD),
        Opcode::BMLT => single::fixed(0x7D, 0xDE),
        Opcode::FSET => below8(0xEB, 4, 16, n),
        Opcode::FCLR => below8(0xEB, 5, 16, n),
        Opcode::LDIPL => below8(0x7D, 0xA0, 1, n),
        Opcode::ADD => nibble(n),
        _ => None,
    }
}
