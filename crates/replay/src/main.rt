// Replays the stored list of answers: decodes, encodes, sweeps or asks for what each line of its input gives, and compares.
// Its last line of output counts the answers compared, those that differ and, if there are any, the malformed lines.
#![tactic(auto)]

mod asking;
mod decoding;
mod encoding;
mod form;
mod given;
mod hex;
mod kind;
mod numbers;
mod placing;
mod sweeping;
mod tally;
mod verdict;

ghost use Rattle.std.specs.Prelude.{length};
ghost use Rattle.replay.specs.Line.{Whole, Right, Says};
ghost use Rattle.replay.specs.Tally.{Counted, Tallied};
ghost use Rattle.replay.specs.Verdict.{Tells};

use form::{LENGTH, Line};
use kind::Kind;
use std::io;
use std::io::{Read, Write};
use std::ops::ControlFlow;
use tally::Tally;
use verdict::Verdict;

// 80 lines of 49 characters.
const PIECE: usize = 80 * LENGTH;

fn is_whole(line: &Line, kind: Kind) -> bool
    ensures { Tells result (Whole kind line.now) }
{
    match kind {
        Kind::Encodes { manual } => encoding::is_whole(line, manual),
        Kind::Sweeps(rule) => sweeping::is_whole(line, rule),
        Kind::Asks => asking::is_whole(line),
        Kind::Places => placing::is_whole(line),
        Kind::Decodes => decoding::is_whole(line),
    }
}

fn agrees(line: &Line, kind: Kind) -> bool
    requires { Whole kind line.now }
    ensures { Tells result (Right kind line.now) }
{
    match kind {
        Kind::Encodes { manual } => encoding::agrees(line, manual),
        Kind::Sweeps(rule) => sweeping::agrees(line, rule),
        Kind::Asks => asking::agrees(line),
        Kind::Places => placing::agrees(line),
        Kind::Decodes => decoding::agrees(line),
    }
}

fn judge(line: &[u8]) -> Verdict
    ensures { Says result line.now }
{
    let Ok(line) = <&Line>::try_from(line) else {
        return Verdict::Malformed;
    };
    let kind = kind::kind_of(line);
    if !is_whole(line, kind) {
        return Verdict::Malformed;
    }
    if !agrees(line, kind) {
        return Verdict::Differs;
    }
    Verdict::Agrees
}

// A failed write is passed over here: the line that counts the answers is written to the same place, and tells of a failure.
fn show_first<W: Write>(line: &[u8], out: &mut W) {
    let _ = out.write_all(b"first: ");
    let _ = out.write_all(line);
}

// The first line that differs is written when it is met, so that no later step has to keep it.
fn replay_line<W: Write>(line: &[u8], t: Tally, out: &mut W) -> Tally
    ensures { Counted line.now t result }
{
    match judge(line) {
        Verdict::Agrees => t.agreed(),
        Verdict::Differs => {
            if t.none_differs() {
                show_first(line, out);
            }
            t.differed()
        }
        Verdict::Malformed => t.malformed(),
    }
}

// What is left over at the end is a line too, and a malformed one.
fn replay_lines<W: Write>(text: &[u8], t: Tally, out: &mut W) -> Tally
    ensures { Tallied text.now (length text.now) t result }
{
    let mut tally = t;
    for line in text.chunks(LENGTH) {
        tally = replay_line(line, tally, out);
    }
    tally
}

// A piece that is not full is the last.
fn replay_piece<R: Read, W: Write>(
    t: Tally,
    input: &mut R,
    out: &mut W,
) -> io::Result<ControlFlow<Tally, Tally>> {
    let mut piece = [0u8; PIECE];
    let n = reading::read_full(input, &mut piece)?;
    let tally = replay_lines(&piece[..n], t, out);
    if n < PIECE {
        return Ok(ControlFlow::Break(tally));
    }
    Ok(ControlFlow::Continue(tally))
}

// Nothing says that the input ends, so the pieces are counted up to a number that no run reaches.
fn replay<R: Read, W: Write>(input: &mut R, out: &mut W) -> io::Result<Tally> {
    let mut tally = Tally::default();
    for _ in 0..u64::MAX {
        match replay_piece(tally, input, out)? {
            ControlFlow::Continue(t) => tally = t,
            ControlFlow::Break(t) => return Ok(t),
        }
    }
    Ok(tally)
}

fn main(rt: HostRuntime) -> io::Result<()> {
    let tally = replay(&mut rt.stdin(), &mut rt.stdout())?;
    rt.println(tally)
}
