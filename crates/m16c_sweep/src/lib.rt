// The sweeps for C, a crate of their own: both share one loop, and what stands below is inlined into it where it has one caller.

#![tactic(auto)]

ghost use Rattle.std.specs.Prelude.{◌≡◌};
ghost use Rattle.m16c_sweep.specs.Parts.{told, swept_in, SweepsInParts};
ghost use Rattle.rows.specs.Groups.{document01};
ghost use Rattle.sweep.specs.Swept.{swept_of};
ghost use Rattle.sweep.specs.declared.Rule.{Rule};

use record::refusal::Refusal;
use sweep::Swept;

// The starts of an image's instructions, to its end: a refused place is counted, and the next byte decoded. Returns 0, and leaves how many
// starts were kept, the image's length, how many places were refused and how many bytes all decodings took, at most three times the image's
// length; or returns 7 or 6, and leaves 0 and the starts as they were.
pub fn m16c_sweep(
    image: &[u8],
    starts: &mut [u16],
    count: &mut usize,
    place: &mut usize,
    refused: &mut usize,
    read: &mut usize,
) -> u32
    ensures { SweepsInParts document01 Rule.GoOn image.now starts.old result count.new place.new refused.new read.new starts.new }
{
    let swept = numbers_of(sweep::sweep(image, starts));
    in_parts(swept, count, place, refused, read)
}

// The starts of an image's instructions, to its end or the first refusal. Returns that refusal, 0 at the end, and leaves how many starts
// were kept, where decoding stopped, 0 for refused and how many bytes all decodings took, the refused one too, at most the image's length;
// or returns 7 or 6, and leaves 0 and the starts as they were.
pub fn m16c_sweep_stopping(
    image: &[u8],
    starts: &mut [u16],
    count: &mut usize,
    place: &mut usize,
    refused: &mut usize,
    read: &mut usize,
) -> u32
    ensures { SweepsInParts document01 Rule.Stop image.now starts.old result count.new place.new refused.new read.new starts.new }
{
    let stopped = numbers_of(sweep::sweep_stopping(image, starts));
    in_parts(stopped, count, place, refused, read)
}

// What a sweep tells, as numbers: the refusal is 0 for none, or any.
#[derive(Clone, Copy)]
pub struct Numbers {
    pub refusal: u8,
    pub count: usize,
    pub place: usize,
    pub refused: usize,
    pub read: usize,
}

// Those of a sweep's result: one that was refused before it began has none but the refusal's.
pub fn numbers_of(s: Result<Swept, Refusal>) -> Numbers
    ensures { told result ≡ swept_of s }
{
    match s {
        Ok(s) => Numbers {
            refusal: s.stop.map_or(0, u8::from),
            count: s.count,
            place: s.place,
            refused: s.refused,
            read: s.read,
        },
        Err(why) => Numbers {
            refusal: u8::from(why),
            count: 0,
            place: 0,
            refused: 0,
            read: 0,
        },
    }
}

// Numbers left one by one, and the refusal returned.
pub fn in_parts(
    s: Numbers,
    count: &mut usize,
    place: &mut usize,
    refused: &mut usize,
    read: &mut usize,
) -> u32
    ensures { told s ≡ swept_in result count.new place.new refused.new read.new }
{
    *count = s.count;
    *place = s.place;
    *refused = s.refused;
    *read = s.read;
    u32::from(s.refusal)
}
