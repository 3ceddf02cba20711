// Lists an image from standard input: a line for each instruction and each refused place, and one for the image's end. With the argument
// --stopping it ends at the first refused place, with --manual behind that or alone it goes by the manual.
#![tactic(auto)]

mod asked;

ghost use Rattle.std.specs.Prelude.{◌≤◌};

use asked::Asked;
use std::env::{Env, FillError};
use std::io;
use std::io::{Read, Write};
use sweep::Rule;

// The buffer has a byte more than an image may have, so that a longer one is told.
fn list<R: Read, W: Write>(manual: bool, rule: Rule, input: &mut R, out: &mut W) -> io::Result<()> {
    let mut image = [0u8; 4097];
    let n = reading::read_full(input, &mut image)?;
    listing::list(manual, rule, &image[..n], out)
}

// How many words the command line has, the program's own name among them. (It tells them one by one, so they are counted.)
fn word_count(env: &impl Env) -> usize {
    let mut word = [0u8; 16];
    for i in 0..usize::MAX {
        if let Err(FillError::NotPresent) = env.arg(i, &mut word) {
            return i;
        }
    }
    usize::MAX
}

// A word too long for its buffer comes as none, and is not known either. (None has length 0: how many there are tells it from an empty one.)
fn word(env: &impl Env, i: usize, out: &mut [u8; 16]) -> usize
    ensures { result ≤ 16 }
{
    match env.arg(i, out) {
        Ok(n) => n,
        Err(_) => 0,
    }
}

fn main(rt: HostRuntime) -> io::Result<()> {
    let mut first = [0u8; 16];
    let n = word(&rt, 1, &mut first);
    let mut second = [0u8; 16];
    let m = word(&rt, 2, &mut second);
    match asked::by_words(word_count(&rt), &first[..n], &second[..m]) {
        Some(Asked { manual, rule }) => list(manual, rule, &mut rt.stdin(), &mut rt.stdout()),
        None => eprintln!(rt;
            "list_image: an image comes from standard input, the only arguments are --stopping and, behind it or alone, --manual"
        ),
    }
}
