// A listing in pieces: as many whole lines as fit into a buffer.
ghost use Rattle.std.specs.Prelude.{◌≡◌, List, Bool, ℕ, ◌+◌, ◌^◌, ◌≤◌, ◌<◌, length, Some};
ghost use Rattle.laws.specs.Over.{over};
ghost use Rattle.by_manual.specs.Table.{table_by};
ghost use Rattle.line.specs.Left.{Writes};
ghost use Rattle.listing.specs.Listing.{step_text, line_at, listing};
ghost use Rattle.listing.specs.steps.Page.{to_list, next_of, Filled};
ghost use Rattle.sweep.specs.Step.{standing};
ghost use Rattle.sweep.specs.Walk.{onward};
ghost use Rattle.sweep.specs.Visits.{bytes_of};

use readers::answer::Decoded;
use record::refusal::Refusal;
use sweep::{Rule, step};

// No line is longer, its newline included.
const ROOM: usize = 121;

// What is still to be listed: that the image is too long, or the lines from a place on.
#[derive(Clone, Copy)]
pub enum Next {
    TooLong,
    From(usize),
}

// The bytes filled, and what is to be listed behind them, if anything is.
#[derive(Clone, Copy)]
pub struct Page {
    pub length: usize,
    pub next: Option<Next>,
}

// An image of more than 4,096 bytes is refused.
#[tactic(auto, unfolding(crate::specs::Listing::listing))]
pub fn first(image: &[u8]) -> Next
    ensures { (manual : Bool) (rule : Rule) → to_list (table_by manual) rule image.now (Some result) ≡ listing (table_by manual) rule image.now }
{
    if 4096 < image.len() {
        return Next::TooLong;
    }
    Next::From(0)
}

// The text of what stands at a place.
fn write_step(place: usize, here: Option<Decoded>, out: &mut [u8]) -> Result<usize, Refusal>
    ensures { Writes (step_text place (standing here)) out.old result out.new }
{
    match here {
        None => line::end(place, out),
        Some(Ok(r)) => line::line(place, r, out),
        Some(Err(e)) => line::refused(place, u8::from(e.why), e.taken, out),
    }
}

// The same with its newline: there is room for any line.
fn put_line(place: usize, here: Option<Decoded>, out: &mut [u8]) -> usize
    requires { 121 ≤ length out.old }
    ensures { (result ≡ length (line_at place (standing here))) × (out.new ≡ over (line_at place (standing here)) out.old) }
{
    let n = write_step(place, here, out).unwrap();
    out[n] = b'\n';
    n + 1
}

// From where is to be listed behind the line of a place.
fn behind(rule: Rule, place: usize, here: Option<Decoded>) -> Option<usize>
    requires { place + bytes_of (standing here) < 2 ^ 64 }
    ensures { result ≡ next_of (onward rule place (standing here)) }
{
    match here {
        None => None,
        Some(Ok(r)) => Some(place + r.length),
        Some(Err(_)) => match rule {
            Rule::GoOn => Some(place + 1),
            Rule::Stop => None,
        },
    }
}

// What is listed of an image from a place on, as far as whole lines fit. (No `for`: a place moves on by what was decoded.)
fn fill_lines(manual: bool, rule: Rule, image: &[u8], from: usize, out: &mut [u8]) -> Page
    ensures { Filled (table_by manual) rule image.now (Next.From from) (length out.old) result out.new }
{
    let mut at: usize = 0;
    let mut place = from;
    while ROOM <= out.len() - at {
        let here = step::step_at(manual, image, place);
        at += put_line(place, here, &mut out[at..]);
        let Some(next) = behind(rule, place, here) else {
            return Page {
                length: at,
                next: None,
            };
        };
        place = next;
    }
    Page {
        length: at,
        next: Some(Next::From(place)),
    }
}

fn fill_too_long(out: &mut [u8]) -> Page
    ensures { (manual : Bool) (rule : Rule) (image : List ℕ) → Filled (table_by manual) rule image Next.TooLong (length out.old) result out.new }
{
    if out.len() < ROOM {
        return Page {
            length: 0,
            next: Some(Next::TooLong),
        };
    }
    out[..10].copy_from_slice(b"REFUSED 7\n");
    Page {
        length: 10,
        next: None,
    }
}

// The next page of a listing.
pub fn fill(manual: bool, rule: Rule, image: &[u8], next: Next, out: &mut [u8]) -> Page
    ensures { Filled (table_by manual) rule image.now next (length out.old) result out.new }
{
    match next {
        Next::TooLong => fill_too_long(out),
        Next::From(place) => fill_lines(manual, rule, image, place, out),
    }
}
