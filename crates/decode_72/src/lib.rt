// The groups of request A7, which the Rust has in its first-byte table: what stands behind a first byte, by the second byte b.

#![tactic(auto)]

pub mod two; // ten pairs of first bytes, 72 to C1
pub mod list; // EC and ED

ghost use Rattle.std.specs.Prelude.{◌≡◌, ◌/◌, ◌%◌};
ghost use Rattle.laws.specs.Choice.{pick};
ghost use Rattle.record.specs.Answer.{answer_of};
ghost use Rattle.rows.specs.Groups.{rows_of};
ghost use Rattle.rows.specs.Run.{refusal, run_row};
ghost use Rattle.decode_72.specs.steps.Added.{is_two, is_list, is_added};

use readers::answer;
use readers::answer::Decoded;
use record::refusal::Refusal;

// 72 and 73; behind 7E, to C1, the first two of each eight, of which 7F is none.
#[tactic(auto, unfolding(crate::specs::steps::Added::is_two))]
pub fn is_two(a: u8) -> bool
    ensures { result ≡ is_two a }
{
    if a < 0x7F {
        return a / 2 == 0x39;
    }
    if 0xC1 < a {
        return false;
    }
    a % 8 < 2
}

// EC and ED.
#[tactic(auto, unfolding(crate::specs::steps::Added::is_list))]
pub fn is_list(a: u8) -> bool
    ensures { result ≡ is_list a }
{
    a / 2 == 0x76
}

// A first byte of one of these groups.
#[tactic(auto, unfolding(crate::specs::steps::Added::is_added))]
pub fn is_added(a: u8) -> bool
    ensures { result ≡ is_added a }
{
    is_two(a) || is_list(a)
}

// One of these groups, or a first byte outside. Lists are asked for behind all pairs alone: so the sweep takes less (docs/DECISIONS.md).
pub fn decode_added(bs: &[u8], a: u8, b: u8) -> Decoded
    ensures { answer_of result ≡ pick (is_added a) (run_row (rows_of a (b / 16) (b % 16)) bs.now) (refusal 4 1) }
{
    if is_two(a) {
        return two::decode_two(bs, a, b);
    }
    if 0xC1 < a && is_list(a) {
        return list::decode_list(a, b);
    }
    answer::refuse_for(Refusal::FirstByteOutside, 1)
}
