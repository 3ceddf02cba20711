ghost use Rattle.std.specs.Prelude.{◌≡◌, ◌%◌, ◌<◌};
ghost use Rattle.record.specs.declared.Width.{Width};
ghost use Rattle.rows.specs.Codes.{name_J, name_P, no_pair, num_J};
ghost use Rattle.readers.specs.steps.Told.{found_in};
ghost use Rattle.readers.specs.steps.Places.{pair_place, long_place};

use crate::{general, numbers, set};
use record::refusal::Refused;
use record::{Operand, Seen};

// The place of a pair's name in the table: from code 6 on that of G.
fn pair_place(n: usize) -> usize
    requires { n < 16 }
    ensures { (result ≡ pair_place n) × (result < 40) }
{
    if n < 6 { 32 + n } else { n }
}

// The place of J's name: Disp20 at C and D.
fn long_place(n: usize) -> usize
    requires { n < 16 }
    ensures { (result ≡ long_place n) × (result < 40) }
{
    if n / 2 == 6 { 26 + n } else { pair_place(n) }
}

// A register pair below 6, else as G, which names the same at both widths there.
pub fn pair_name(code: u8) -> Operand
    ensures { (w : Width) → result ≡ name_P w (code % 16) }
{
    // (`as` and no conversion, here and below: that is a call, one step more in each proof.)
    general::NAMES[pair_place((code % 16) as usize)]
}

// J(code): its name, by the low nibble.
pub fn long_name(code: u8) -> Operand
    ensures { result ≡ name_J (code % 16) }
{
    general::NAMES[long_place((code % 16) as usize)]
}

// J(code): no register pair has code 2, 3 or 5.
pub fn long_refused(code: u8) -> bool
    ensures { result ≡ no_pair code }
{
    set::has(0x2C, code)
}

// J(code): 20 bits at C and D, the rest is as G.
#[tactic(auto, unfolding(rows::specs::Codes::num_J))]
pub fn long(bs: &[u8], s: Seen, code: u8) -> Result<Seen, Refused>
    ensures { result ≡ found_in (num_J code) bs.now s }
{
    if code == 12 {
        return numbers::long20(bs, s);
    }
    if code == 13 {
        return numbers::long20(bs, s);
    }
    general::general(bs, s, code)
}
