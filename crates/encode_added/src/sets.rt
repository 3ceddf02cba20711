// The names that go with an opcode in a changed row: by width the sets of operand 0's names, with the size, and of operand 1's.
// (A table for each width: one that is found by the width was measured to be slower.)
#![tactic(auto, using(crate::proofs::InSets::told_sets), unfolding(crate::proofs::InSets::are_sets, record::specs::Same::among, record::specs::Same::same_name))]

ghost use Rattle.std.specs.Prelude.{◌≡◌};
ghost use Rattle.record.specs.declared.Width.TheVariants.{None, B, W};
ghost use Rattle.encode_added.specs.steps.Entries as entries;
ghost use Rattle.encode_added.specs.steps.Sets.{AreSets};

use encode_choice::name_sets::Sets;
use encode_choice::{Asked, forms};
use record::{Opcode, Width};

// Opcodes whose changed rows have the same names and size. (Found by its kind, a set has a table of a few entries; by the opcode, of a hundred.)
#[derive(Clone, Copy)]
pub enum Kind {
    Alone,
    Product,
    SizedProduct,
    ToStack,
    ToControl,
    WordJump,
    Flag,
    FlagNumber,
    Level,
    ToPointer,
    Unchanged, // a kind as any: the definition `kind_of` names it
}

#[tactic(auto, unfolding(crate::specs::steps::Entries::entry_of))]
fn kind_of(o: Opcode) -> Kind
    ensures { result ≡ entries.kind_of o }
{
    match o {
        Opcode::DIVX => Kind::Alone,
        Opcode::DIVU => Kind::Alone,
        Opcode::ADCF => Kind::Alone,
        Opcode::MULU => Kind::SizedProduct,
        Opcode::MUL => Kind::Product,
        Opcode::MOV => Kind::ToStack,
        Opcode::LDC => Kind::ToControl,
        Opcode::JMPI => Kind::WordJump,
        Opcode::JSRI => Kind::WordJump,
        Opcode::BMGE => Kind::Flag,
        Opcode::BMNO => Kind::Flag,
        Opcode::BMLT => Kind::Flag,
        Opcode::FSET => Kind::FlagNumber,
        Opcode::FCLR => Kind::FlagNumber,
        Opcode::LDIPL => Kind::Level,
        Opcode::ADD => Kind::ToPointer,
        _ => Kind::Unchanged,
    }
}

fn at_b(k: Kind) -> Sets
    ensures { AreSets result.0 result.1 k B }
{
    match k {
        Kind::Alone => Sets(0x40059DE0000C0F0, 0x1),
        Kind::Product => Sets(0x200000000000004, 0x59DE00004050),
        Kind::SizedProduct => Sets(0x400000000000004, 0x59DE00004050),
        Kind::ToStack => Sets(0x40059DE0000C0F0, 0x2000000000),
        Kind::ToControl => Sets(0x20059DE0000CF00, 0x1FC000000000000),
        Kind::WordJump => Sets(0, 0),
        Kind::Flag => Sets(0, 0),
        Kind::FlagNumber => Sets(0, 0),
        Kind::Level => Sets(0, 0),
        Kind::ToPointer => Sets(0, 0),
        Kind::Unchanged => Sets(0, 0),
    }
}

fn at_w(k: Kind) -> Sets
    ensures { AreSets result.0 result.1 k W }
{
    match k {
        Kind::Alone => Sets(0x80059DE0000CF00, 0x1),
        Kind::Product => Sets(0x200000000000008, 0x59DE00004300),
        Kind::SizedProduct => Sets(0x800000000000008, 0x59DE00004300),
        Kind::ToStack => Sets(0x80059DE0000CF00, 0x2000000000),
        Kind::ToControl => Sets(0, 0),
        Kind::WordJump => Sets(0x8005F1E0000CF00, 0x1),
        Kind::Flag => Sets(0x200000000000001, 0x1),
        Kind::FlagNumber => Sets(0, 0),
        Kind::Level => Sets(0x200000000000004, 0x1),
        Kind::ToPointer => Sets(0x800000000000004, 0x40000000000000),
        Kind::Unchanged => Sets(0, 0),
    }
}

fn at_none(k: Kind) -> Sets
    ensures { AreSets result.0 result.1 k None }
{
    match k {
        Kind::Alone => Sets(0, 0),
        Kind::Product => Sets(0, 0),
        Kind::SizedProduct => Sets(0, 0),
        Kind::ToStack => Sets(0, 0),
        Kind::ToControl => Sets(0, 0),
        Kind::WordJump => Sets(0, 0),
        Kind::Flag => Sets(0, 0),
        Kind::FlagNumber => Sets(0x200000000000002, 0x1),
        Kind::Level => Sets(0, 0),
        Kind::ToPointer => Sets(0, 0),
        Kind::Unchanged => Sets(0, 0),
    }
}

// (Of most opcodes no row is changed: they are told first, before any set is looked up. So it is no instance of `goes_with`, which looks up each.)
#[tactic(auto, unfolding(crate::specs::steps::Entries::goes_as, record::specs::Same::among))]
pub(crate) fn goes(o: Opcode, q: Asked) -> bool
    ensures { result ≡ entries.goes o q }
{
    let kind = kind_of(o);
    match (kind, q.width) {
        (Kind::Unchanged, _) => false,
        (_, Width::B) => forms::all_in(at_b(kind), q),
        (_, Width::W) => forms::all_in(at_w(kind), q),
        (_, Width::None) => forms::all_in(at_none(kind), q),
    }
}
