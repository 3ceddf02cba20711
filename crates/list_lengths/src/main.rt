// Tells lengths from two bytes: for each three bytes of standard input, which are how many bytes are asked about, 0 to 2, and these, a line
// with the length, or with REFUSED and why there is none.
#![tactic(auto)]

ghost use Rattle.std.specs.Prelude.{◌≤◌};

use std::io;
use std::io::{Read, Write};

// A thousand questions.
const PIECE: usize = 3 * 1000;

// The function that C calls is asked, refusal and length apart.
fn tell<W: Write>(bytes: &[u8], out: &mut W) -> io::Result<()> {
    let mut length: usize = 0;
    let refusal = m16c_length::m16c_length(bytes, &mut length);
    if refusal == 0 {
        return writeln!(out, "{length}");
    }
    writeln!(out, "REFUSED {refusal}")
}

fn count_of(b: u8) -> usize
    ensures { result ≤ 2 }
{
    usize::from(b.min(2))
}

// A question that is cut short ends it.
fn tell_all<W: Write>(text: &[u8], out: &mut W) -> io::Result<()> {
    let mut rest = text;
    while let [count, first, second, left @ ..] = rest {
        tell(&[*first, *second][..count_of(*count)], out)?;
        rest = left;
    }
    Ok(())
}

// Whether there may be more: a piece that is not full is the last. (A bool, as it carries nothing.)
fn tell_piece<R: Read, W: Write>(input: &mut R, out: &mut W) -> io::Result<bool> {
    let mut text = [0u8; PIECE];
    let n = reading::read_full(input, &mut text)?;
    tell_all(&text[..n], out)?;
    Ok(n == PIECE)
}

// Nothing says that the input ends, so the pieces are counted up to a number that no run uses up.
fn main(rt: HostRuntime) -> io::Result<()> {
    for _ in 0..u64::MAX {
        if !tell_piece(&mut rt.stdin(), &mut rt.stdout())? {
            return Ok(());
        }
    }
    Ok(())
}
