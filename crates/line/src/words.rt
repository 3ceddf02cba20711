// A record's line as packed words, up to eight characters in each: there is no heap to make texts in, and a word is passed as a number.
ghost use Rattle.std.specs.Prelude.{◌≡◌, ◌∷◌, map, ◌<◌, ◌≤◌, nat_abs};
ghost use Rattle.record.specs.Signed.{number_of};
ghost use Rattle.line.specs.Characters.{digit, hex};
ghost use Rattle.line.specs.Line.{width_text, size_text, digits_of, sign_text, number_text, dropped_text};
ghost use Rattle.line.specs.steps.Packed.{pack, place_text, length_text, parts, end_parts, refused_parts};

use crate::names;
use record::{Operand, Record, Size, Width, fields, signed};

fn width_word(x: Width) -> u64
    ensures { result ≡ pack (width_text x) }
{
    match x {
        Width::None => 0x2D, // -
        Width::B => 0x42, // B
        Width::W => 0x57, // W
    }
}

fn size_word(x: Size) -> u64
    ensures { result ≡ pack (size_text x) }
{
    match x {
        Size::None => 0,
        Size::B => 0x422E, // .B
        Size::W => 0x572E, // .W
        Size::L => 0x4C2E, // .L
    }
}

#[tactic(auto, unfolding(crate::specs::Characters::digit))]
fn digit_of(d: u64) -> u64
    requires { d < 16 }
    ensures { result ≡ digit d }
{
    if d < 10 {
        return 48 + d;
    }
    55 + d
}

// The low digits of a number, the highest in the lowest byte.
fn digits(n: u8, v: u64) -> u64
    requires { n ≤ 5 }
    ensures { (result ≡ pack (hex n v)) × (result < 0x10000000000) }
{
    let mut word = 0;
    let mut rest = v;
    for _k in 0..n {
        word = digit_of(rest % 16) + 0x100 * word;
        rest /= 16;
    }
    word
}

// How many digits of a name's number are shown.
#[tactic(auto, unfolding(crate::specs::Line::digits_of, record::specs::Same::among, record::specs::Same::same_name))]
fn digits_of(x: Operand) -> u8
    ensures { (result ≡ digits_of x) × (result ≤ 5) }
{
    match x {
        Operand::Imm4 => 1,
        Operand::Imm8
        | Operand::Disp8
        | Operand::RegList
        | Operand::Disp8_A0
        | Operand::Disp8_A1
        | Operand::Disp8_SB
        | Operand::Disp8_FB
        | Operand::Disp8_SP
        | Operand::Bit_R0
        | Operand::Bit_R1
        | Operand::Bit_R2
        | Operand::Bit_R3
        | Operand::Bit_A0
        | Operand::Bit_A1
        | Operand::Bit_Disp8_A0
        | Operand::Bit_Disp8_A1
        | Operand::Bit_Disp8_SB
        | Operand::Bit_Disp8_FB => 2,
        Operand::Imm16
        | Operand::Abs16
        | Operand::Disp16_A0
        | Operand::Disp16_A1
        | Operand::Disp16_SB
        | Operand::Bit_Abs16
        | Operand::Bit_Disp16_A0
        | Operand::Bit_Disp16_A1
        | Operand::Bit_Disp16_SB => 4,
        Operand::Abs20 | Operand::Disp20_A0 | Operand::Disp20_A1 => 5,
        _ => 0,
    }
}

fn sign_of(n: i64) -> u64
    ensures { (result ≡ pack (sign_text n)) × (result < 0x100) }
{
    if n < 0 {
        return 0x2D;
    }
    0x2B
}

// `=`, the sign of a signed number, and the digits, of which a signed one has two.
fn number_word(x: Operand, v: u32) -> u64
    ensures { result ≡ pack (number_text x (number_of x v)) }
{
    if signed::is_signed(x) {
        let n = signed::number_of(x, v);
        return 0x3D + 0x100 * (sign_of(n) + 0x100 * digits(2, n.unsigned_abs()));
    }
    let count = digits_of(x);
    if count == 0 {
        return 0;
    }
    0x3D + 0x100 * digits(count, u64::from(v))
}

fn dropped_word(x: bool) -> u64
    ensures { result ≡ pack (dropped_text x) }
{
    if x { 0x2120 } else { 0 }
}

// The words of a line, behind two that are given.
pub fn words_of(first: u64, second: u64, r: Record) -> [u64; 15]
    ensures { result ≡ first ∷ second ∷ map pack (parts r) }
{
    let a = names::operand_shown(r.op0);
    let b = names::operand_shown(r.op1);
    let c = names::operand_shown(r.op2);
    let numbers = fields::numbers_of(r);
    [
        first,
        second,
        width_word(r.width),
        names::opcode_word(r.opcode),
        size_word(r.size),
        a.0,
        a.1,
        number_word(r.op0, numbers.number0),
        b.0,
        b.1,
        number_word(r.op1, numbers.number1),
        c.0,
        c.1,
        number_word(r.op2, numbers.number2),
        dropped_word(r.dropped),
    ]
}

// A place and the space behind it.
pub fn place_word(place: usize) -> u64
    ensures { result ≡ pack (place_text place) }
{
    digits(4, place as u64) + 0x2000000000
}

pub fn length_word(n: usize) -> u64
    ensures { result ≡ pack (length_text n) }
{
    digits(1, n as u64) + 0x2000
}

pub fn end_words(place: usize) -> [u64; 2]
    ensures { result ≡ map pack (end_parts place) }
{
    [
        0x20444E45, // END
        digits(4, place as u64),
    ]
}

pub fn refused_words(place: usize, refusal: u8, taken: usize) -> [u64; 5]
    ensures { result ≡ map pack (refused_parts place refusal taken) }
{
    [
        digits(4, place as u64),
        0x4445535546455220, // REFUSED
        0x20 + 0x100 * digits(1, u64::from(refusal)),
        0x204E454B415420, // TAKEN
        digits(1, taken as u64),
    ]
}
