// How many bytes behind a code a name's number has, and what it must be below.
ghost use Rattle.std.specs.Prelude.{◌≡◌, ◌≤◌};
ghost use Rattle.encode.specs.steps.Slots.{size_of, count_of, limit_of};

use record::Operand;

#[derive(Clone, Copy)]
pub(crate) struct Slot {
    pub count: u8,
    pub limit: u32,
    pub ghost short: { count ≤ 3 },
}

// Both in one byte, so that a table of bytes is enough: 32 for each byte behind the code, and how many bits the number may have. Imm4 and
// RegList are part of a code.
const ONE_BYTE: u8 = 32 + 8;

const TWO_BYTES: u8 = 2 * 32 + 16;

const THREE_BYTES: u8 = 3 * 32 + 20;

const FOUR_BITS: u8 = 4;

const EIGHT_BITS: u8 = 8;

#[tactic(auto, unfolding(crate::specs::steps::Slots::count_of, crate::specs::steps::Slots::size_of, record::specs::Same::same_name, record::specs::Same::among))]
fn size_of(o: Operand) -> u8
    ensures { result ≡ size_of o }
{
    match o {
        Operand::Imm8
        | Operand::Bit_R0
        | Operand::Bit_R1
        | Operand::Bit_R2
        | Operand::Bit_R3
        | Operand::Bit_A0
        | Operand::Bit_A1
        | Operand::Bit_Disp8_A0
        | Operand::Bit_Disp8_A1
        | Operand::Bit_Disp8_SB
        | Operand::Bit_Disp8_FB
        | Operand::Disp8_A0
        | Operand::Disp8_A1
        | Operand::Disp8_SB
        | Operand::Disp8_FB
        | Operand::Disp8_SP
        | Operand::Disp8 => ONE_BYTE,
        Operand::Imm16
        | Operand::Bit_Disp16_A0
        | Operand::Bit_Disp16_A1
        | Operand::Bit_Disp16_SB
        | Operand::Bit_Abs16
        | Operand::Disp16_A0
        | Operand::Disp16_A1
        | Operand::Disp16_SB
        | Operand::Abs16 => TWO_BYTES,
        Operand::Disp20_A0 | Operand::Disp20_A1 | Operand::Abs20 => THREE_BYTES,
        Operand::Imm4 => FOUR_BITS,
        Operand::RegList => EIGHT_BITS,
        _ => 0,
    }
}

#[tactic(auto, using(crate::proofs::Sized::sized_count, crate::proofs::Sized::sized_short, crate::proofs::Sized::sized_limit))]
#[inline]
pub(crate) fn slot_of(o: Operand) -> Slot
    ensures { (result.count ≡ count_of o) × (result.limit ≡ limit_of o) }
{
    let size = size_of(o);
    Slot {
        count: size / 32,
        limit: 1 << (size % 32),
    }
}
