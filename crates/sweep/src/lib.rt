// Decoding repeated over an image, by a reading and a rule: where its instructions start, and what becomes of the places that are refused.

#![tactic(auto)]

ghost use Rattle.std.specs.Prelude.{◌+◌, ◌-◌, ◌≤◌, ◌≡◌, length};
ghost use Rattle.record.specs.Answer.{number_of};
ghost use Rattle.rows.specs.Groups.{document01};
ghost use Rattle.by_manual.specs.Table.{by_manual, table_by};
ghost use Rattle.sweep.specs.Swept.{swept_of, begins, has_begun};
ghost use Rattle.sweep.specs.Sweep.{Sweeps};
ghost use Rattle.sweep.specs.steps.Before.{Took, Runs};

use record::refusal::{Refusal, Refused};

pub mod step; // what stands at a place

// At a refused place a sweep goes on with the next byte, or stops.
#[derive(Clone, Copy, PartialEq, Eq)]
pub enum Rule {
    GoOn,
    Stop,
}

// How many starts were kept, where decoding stopped, the refusal there, none at the image's end, how many refused places were passed, and
// how many bytes all decodings took.
#[derive(Clone, Copy, PartialEq, Eq)]
pub struct Swept {
    pub stop: Option<Refusal>,
    pub count: usize,
    pub place: usize,
    pub refused: usize,
    pub read: usize,
}

// What a run breaks out with: what was refused, nothing at the image's end, the starts kept so far, and the place.
#[derive(Clone, Copy)]
struct Stopped {
    refused: Option<Refused>,
    count: usize,
    place: usize,
}

// The four are one function: each has a name of its own, since each has a promise of its own.
// The starts of an image's instructions to its end; a refused place is counted, and passed by one byte.
pub fn sweep(image: &[u8], starts: &mut [u16]) -> Result<Swept, Refusal>
    ensures swept { Sweeps document01 Rule.GoOn image.now starts.old (swept_of result) starts.new }
    ensures begun { has_begun result ≡ begins image.now starts.old }
{
    sweep_by(false, Rule::GoOn, image, starts)
}

// The starts of an image's instructions to its end or the first refusal.
pub fn sweep_stopping(image: &[u8], starts: &mut [u16]) -> Result<Swept, Refusal>
    ensures swept { Sweeps document01 Rule.Stop image.now starts.old (swept_of result) starts.new }
    ensures begun { has_begun result ≡ begins image.now starts.old }
{
    sweep_by(false, Rule::Stop, image, starts)
}

// Both by the manual.
pub fn sweep_manual(image: &[u8], starts: &mut [u16]) -> Result<Swept, Refusal>
    ensures swept { Sweeps by_manual Rule.GoOn image.now starts.old (swept_of result) starts.new }
    ensures begun { has_begun result ≡ begins image.now starts.old }
{
    sweep_by(true, Rule::GoOn, image, starts)
}

pub fn sweep_manual_stopping(image: &[u8], starts: &mut [u16]) -> Result<Swept, Refusal>
    ensures swept { Sweeps by_manual Rule.Stop image.now starts.old (swept_of result) starts.new }
    ensures begun { has_begun result ≡ begins image.now starts.old }
{
    sweep_by(true, Rule::Stop, image, starts)
}

// A run stops at a refused place; by the rule of going on another begins behind it. The loop over runs is apart from the loop over
// instructions, since one loop for both takes more machine instructions than a sweep did that could only stop. (No `for` in either: a place
// moves on by what was decoded.)
fn sweep_by(manual: bool, rule: Rule, image: &[u8], starts: &mut [u16]) -> Result<Swept, Refusal>
    ensures swept { Sweeps (table_by manual) rule image.now starts.old (swept_of result) starts.new }
    ensures begun { has_begun result ≡ begins image.now starts.old }
{
    if 4096 < image.len() {
        return Err(Refusal::ImageTooLong);
    }
    if starts.len() < image.len() {
        return Err(Refusal::TooLittleRoom);
    }
    let mut count: usize = 0;
    let mut place: usize = 0;
    let mut refused: usize = 0;
    // The bytes that refused decodings took behind their places: with those before the place they are all that was read.
    let mut again: usize = 0;
    loop {
        let stopped = run(manual, image, place, starts, count);
        let Some(here) = stopped.refused else {
            return Ok(Swept {
                stop: None,
                count: stopped.count,
                place: stopped.place,
                refused,
                read: stopped.place + again,
            });
        };
        let left = image.len() - stopped.place;
        let later = read_again(again, here, left);
        match rule {
            Rule::Stop => {
                return Ok(Swept {
                    stop: Some(here.why),
                    count: stopped.count,
                    place: stopped.place,
                    refused: 0,
                    read: stopped.place + 1 + later,
                });
            }
            Rule::GoOn => {
                count = stopped.count;
                place = stopped.place + 1;
                refused = refused + 1;
                again = later;
            }
        }
    }
}

// With the bytes that a refused decoding took behind its place, which are read again. Where the refusal tells how many it took, that number
// is not looked at: to carry it there from every test that refuses costs the instructions that pass the test.
fn read_again(before: usize, here: Refused, left: usize) -> usize
    requires { (Took (number_of here.why) here.taken left) × (here.taken ≤ left) × (before + left ≤ 0x7FFFFFFF) }
    ensures { result ≡ before + (here.taken - 1) }
{
    match here.why {
        Refusal::ExhaustedInput => before + (left - 1),
        Refusal::FirstByteOutside => before,
        _ => before + (here.taken - 1),
    }
}

// The instructions one behind the other from a place on, to the image's end or the first refusal. Their starts come behind those kept
// before, each of which has a byte of the image before that place.
fn run(manual: bool, image: &[u8], from: usize, starts: &mut [u16], kept: usize) -> Stopped
    requires { (length image.now ≤ 4096) × (length image.now ≤ length starts.old) × (kept ≤ from) × (from ≤ length image.now) }
    ensures { Runs (table_by manual) image.now from kept starts.old result starts.new }
{
    let mut count = kept;
    let mut place = from;
    loop {
        match step::step_at(manual, image, place) {
            None => {
                break Stopped {
                    refused: None,
                    count,
                    place,
                };
            }
            Some(Err(here)) => {
                break Stopped {
                    refused: Some(here),
                    count,
                    place,
                };
            }
            Some(Ok(r)) => {
                starts[count] = place as u16;
                count = count + 1;
                place = place + r.length;
            }
        }
    }
}
