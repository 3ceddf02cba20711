// A line with an image, and what sweeping it by a rule gives.
ghost use Rattle.std.specs.Prelude.{◌≡◌};
ghost use Rattle.rows.specs.Groups.{document01};
ghost use Rattle.sweep.specs.Sweep.{Sweeps};
ghost use Rattle.sweep.specs.Swept.{swept_of};
ghost use Rattle.replay.specs.Verdict.{Tells};
ghost use Rattle.replay.specs.Sweeping.{Whole, image_in, place_in, refused_in, places, Begins, Right};

use crate::form::Line;
use crate::{form, hex};
use record::refusal::Refusal;
use sweep::{Rule, Swept};

// Bytes given, at most sixteen; sixteen bytes; bytes read, refused places or stopping place, refusal; a bit for each start.
pub(crate) fn is_whole(line: &Line, rule: Rule) -> bool
    ensures { Tells result (Whole rule line.now) }
{
    let form = match rule {
        Rule::GoOn => b"G################################## ## ## # ####\n",
        Rule::Stop => b"S################################## ## ## # ####\n",
    };
    form::has(line, form) && hex::byte_at(line, 1) <= 16
}

// Whether starts are the places of a word's bits, the first place's the highest.
fn are_places(starts: &[u16], bits: u16) -> bool
    ensures { Tells result (starts.now ≡ places 16 bits) }
{
    let mut left = starts;
    let mut rest = bits;
    for place in (0..16).rev() {
        if rest % 2 == 1 {
            let Some((last, before)) = left.split_last() else {
                return false;
            };
            if *last != place {
                return false;
            }
            left = before;
        }
        rest /= 2;
    }
    left.is_empty()
}

// Whether the first so many starts are.
fn begins(starts: &[u16], count: usize, bits: u16) -> bool
    ensures { Tells result (Begins count starts.now (places 16 bits)) }
{
    starts
        .get(..count)
        .is_some_and(|these| are_places(these, bits))
}

fn sweep_by(rule: Rule, image: &[u8], starts: &mut [u16]) -> Result<Swept, Refusal>
    ensures { Sweeps document01 rule image.now starts.old (swept_of result) starts.new }
{
    match rule {
        Rule::GoOn => sweep::sweep(image, starts),
        Rule::Stop => sweep::sweep_stopping(image, starts),
    }
}

// What the sweep says of the image that a line gives.
fn swept(line: &Line, rule: Rule, starts: &mut [u16]) -> Result<Swept, Refusal>
    requires { Whole rule line.now }
    ensures { Sweeps document01 rule (image_in line.now) starts.old (swept_of result) starts.new }
{
    let bytes: [u8; 16] = hex::bytes_at(line, 3);
    let given = usize::from(hex::byte_at(line, 1));
    sweep_by(rule, &bytes[..given], starts)
}

// Going on, the place is the image's end, and the line tells how many were refused.
fn place_in(line: &Line, rule: Rule) -> usize
    ensures { result ≡ place_in rule line.now }
{
    match rule {
        Rule::GoOn => usize::from(hex::byte_at(line, 1)),
        Rule::Stop => usize::from(hex::byte_at(line, 39)),
    }
}

fn refused_in(line: &Line, rule: Rule) -> usize
    ensures { result ≡ refused_in rule line.now }
{
    match rule {
        Rule::GoOn => usize::from(hex::byte_at(line, 39)),
        Rule::Stop => 0,
    }
}

// The count is none of the line's numbers: its bits tell it.
pub(crate) fn agrees(line: &Line, rule: Rule) -> bool
    requires { Whole rule line.now }
    ensures { Tells result (Right rule line.now) }
{
    let mut starts = [0u16; 16];
    // (Sixteen starts are room for sixteen bytes: no sweep is refused before it begins.)
    let Ok(s) = swept(line, rule, &mut starts) else {
        return false;
    };
    let found = (s.stop.map_or(0, u32::from), s.place, s.refused, s.read);
    let said = (
        u32::from(hex::digit_at(line, 42)),
        place_in(line, rule),
        refused_in(line, rule),
        usize::from(hex::byte_at(line, 36)),
    );
    found == said && begins(&starts, s.count, hex::word_at(line, 44))
}
