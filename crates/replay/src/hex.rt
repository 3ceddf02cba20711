// Upper-case hex digits, and the numbers that they spell in a text.
ghost use Rattle.std.specs.Prelude.{◌≡◌, ◌+◌, ◌*◌, ◌<◌, ◌≤◌, length};
ghost use Rattle.replay.specs.Hex.{is_digit, digit_of, digit_at, byte_at, word_at, long_at, bytes_at};

use std::array;

#[tactic(auto, unfolding(crate::specs::Hex::is_digit))]
pub(crate) fn is_digit(c: u8) -> bool
    ensures { result ≡ is_digit c }
{
    matches!(c, b'0'..=b'9' | b'A'..=b'F')
}

// A character that is no digit counts as 0: whoever reads a number has seen before that each is one.
#[tactic(auto, unfolding(crate::specs::Hex::is_digit, crate::specs::Hex::digit_of))]
fn digit(c: u8) -> u8
    ensures { (result ≡ digit_of c) × (result < 16) }
{
    match c {
        b'0'..=b'9' => c - b'0',
        b'A'..=b'F' => c - b'A' + 10,
        _ => 0,
    }
}

pub(crate) fn digit_at(text: &[u8], at: usize) -> u8
    requires { at < length text.now }
    ensures { (result ≡ digit_at text.now at) × (result < 16) }
{
    digit(text[at])
}

// (A text and a place, no slice of what is read: places are those of the form, which specs/ name.)
pub(crate) fn byte_at(text: &[u8], at: usize) -> u8
    requires { at + 2 ≤ length text.now }
    ensures { (result ≡ byte_at text.now at) × (result < 256) }
{
    16 * digit_at(text, at) + digit_at(text, at + 1)
}

pub(crate) fn word_at(text: &[u8], at: usize) -> u16
    requires { at + 4 ≤ length text.now }
    ensures { (result ≡ word_at text.now at) × (result < 65536) }
{
    u16::from_be_bytes(bytes_at(text, at))
}

pub(crate) fn long_at(text: &[u8], at: usize) -> u32
    requires { at + 8 ≤ length text.now }
    ensures { result ≡ long_at text.now at }
{
    u32::from_be_bytes(bytes_at(text, at))
}

// So many bytes from a place on.
pub(crate) fn bytes_at<const N: usize>(text: &[u8], at: usize) -> [u8; N]
    requires { at + 2 * N ≤ length text.now }
    ensures { result ≡ bytes_at N text.now at }
{
    array::from_fn(|k| byte_at(text, at + 2 * k))
}
