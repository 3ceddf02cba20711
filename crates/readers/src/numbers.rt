// The Rust's read_imm, low byte first, once for each number of bytes that a row reads.
ghost use Rattle.std.specs.Prelude.{◌≡◌, ◌+◌, ◌*◌, ◌%◌, ◌^◌, ◌<◌};
ghost use Rattle.rows.specs.Row.{disp, imm, imm20};
ghost use Rattle.rows.specs.Codes.{name_I, size_I};
ghost use Rattle.record.specs.Parts.{part};
ghost use Rattle.readers.specs.steps.Told.{behind, disp_in, found_in, imm_in};
ghost use Rattle.readers.specs.steps.Width.{width_of};

use record::refusal::{Refusal, Refused};
use record::{Operand, Part, Parts, Seen};

// The N bytes behind those taken. If there are too few, every byte was taken.
fn behind<const N: usize>(bs: &[u8], at: usize) -> Result<[u8; N], Refused>
    ensures { result ≡ behind N bs.now at }
{
    if at <= bs.len() {
        if let Some(found) = bs[at..].first_chunk::<N>() {
            return Ok(*found);
        }
    }
    Err(Refused {
        why: Refusal::ExhaustedInput,
        taken: bs.len(),
    })
}

// The last byte's upper nibble is dropped.
fn three(a: u8, b: u8, c: u8) -> u32
    ensures { result ≡ (a + 256 * (b + 256 * c)) % 1048576 }
{
    u32::from_le_bytes([a, b, c % 16, 0])
}

// Where a number was read. A place is told in a byte: no instruction has 256 bytes.
fn part(at: usize, width: u8) -> Part
    ensures { result ≡ part (at % 256) width }
{
    Part {
        offset: (at % 256) as u8,
        width,
    }
}

// A displacement was read: first takes over the one before it, and where that stands.
fn with_disp(s: Seen, width: u8, number: u16) -> Seen
    requires { s.taken + width < 2 ^ 64 }
    ensures { result ≡ disp_in width number s }
{
    Seen {
        dispabs: number,
        first: s.dispabs,
        parts: Parts {
            first: s.parts.dispabs,
            dispabs: part(s.taken, width),
            ..s.parts
        },
        // (`as` and no conversion, here and below: that is a call, one step more in each proof.)
        taken: s.taken + (width as usize),
        ..s
    }
}

// A number for imm_wide was read, and whether bits of it were dropped.
fn with_imm(s: Seen, width: u8, number: u32, dropped: bool) -> Seen
    requires { s.taken + width < 2 ^ 64 }
    ensures { result ≡ imm_in width number dropped s }
{
    Seen {
        imm_wide: number,
        dropped,
        parts: Parts {
            imm_wide: part(s.taken, width),
            ..s.parts
        },
        taken: s.taken + (width as usize),
        ..s
    }
}

// (Four, and none over N: how a number comes of its bytes differs, and each states another read of a row.)
// One byte into dispabs; first keeps what it had.
pub fn disp_byte(bs: &[u8], s: Seen) -> Result<Seen, Refused>
    ensures { result ≡ found_in (disp 1) bs.now s }
{
    let [number] = behind::<1>(bs, s.taken)?;
    Ok(with_disp(s, 1, u16::from(number)))
}

// Two bytes into dispabs.
pub fn disp_word(bs: &[u8], s: Seen) -> Result<Seen, Refused>
    ensures { result ≡ found_in (disp 2) bs.now s }
{
    let [low, high] = behind::<2>(bs, s.taken)?;
    Ok(with_disp(s, 2, u16::from_le_bytes([low, high])))
}

// One byte into imm_wide.
pub fn imm_byte(bs: &[u8], s: Seen) -> Result<Seen, Refused>
    ensures { result ≡ found_in (imm 1) bs.now s }
{
    let [number] = behind::<1>(bs, s.taken)?;
    Ok(with_imm(s, 1, u32::from(number), false))
}

// Two bytes into imm_wide.
pub fn imm_word(bs: &[u8], s: Seen) -> Result<Seen, Refused>
    ensures { result ≡ found_in (imm 2) bs.now s }
{
    let [low, high] = behind::<2>(bs, s.taken)?;
    Ok(with_imm(s, 2, u32::from_le_bytes([low, high, 0, 0]), false))
}

// L: three bytes into imm_wide, 20 bits of them, and whether the nibble above was not zero.
pub fn long20(bs: &[u8], s: Seen) -> Result<Seen, Refused>
    ensures { result ≡ found_in imm20 bs.now s }
{
    let [low, middle, high] = behind::<3>(bs, s.taken)?;
    Ok(with_imm(s, 3, three(low, middle, high), 16 <= high))
}

// I: one byte at B, two at W.
pub fn immediate(bs: &[u8], byte: bool, s: Seen) -> Result<Seen, Refused>
    ensures { result ≡ found_in (imm (size_I (width_of byte))) bs.now s }
{
    if byte {
        return imm_byte(bs, s);
    }
    imm_word(bs, s)
}

pub fn immediate_name(byte: bool) -> Operand
    ensures { result ≡ name_I (width_of byte) }
{
    if byte { Operand::Imm8 } else { Operand::Imm16 }
}
