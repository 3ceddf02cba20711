// Packed words over the first bytes of a buffer.
ghost use Rattle.std.specs.Prelude.{◌≡◌, ◌≤◌, length};
ghost use Rattle.laws.specs.Over.{over};
ghost use Rattle.line.specs.Left.{Writes};
ghost use Rattle.line.specs.steps.Packed.{chars, text};

use record::refusal::Refusal;

// How many characters a word holds: one for each eight of its binary digits, and one for those left. 71 is 64 and 7.
fn count(word: u64) -> usize
    ensures { (result ≡ length (chars word)) × (result ≤ 8) }
{
    ((71 - u64::leading_zeros(word)) / 8) as usize
}

// (Tried with `for n in 0..8`: the loop over the words is then not unrolled, and a line takes a fifth more instructions.)
fn write_word(word: u64, out: &mut [u8]) -> usize
    requires { length (chars word) ≤ length out.old }
    ensures { (result ≡ length (chars word)) × (out.new ≡ over (chars word) out.old) }
{
    let mut rest = word;
    let mut n = 0;
    while n < 8 {
        if rest == 0 {
            return n;
        }
        out[n] = (rest % 256) as u8;
        rest /= 256;
        n += 1;
    }
    n
}

fn count_all(words: &[u64]) -> usize
    ensures { result ≡ length (text words.now) }
{
    let mut n = 0;
    for &word in words {
        n += count(word);
    }
    n
}

fn write_all(words: &[u64], out: &mut [u8])
    requires { length (text words.now) ≤ length out.old }
    ensures { out.new ≡ over (text words.now) out.old }
{
    let mut at = 0;
    for &word in words {
        at += write_word(word, &mut out[at..]);
    }
}

#[tactic(auto, using(crate::proofs::Room::no_room, crate::proofs::Room::room))]
pub fn deliver(words: &[u64], out: &mut [u8]) -> Result<usize, Refusal>
    ensures { Writes (text words.now) out.old result out.new }
{
    let n = count_all(words);
    if out.len() < n {
        return Err(Refusal::TooLittleRoom);
    }
    write_all(words, out);
    Ok(n)
}
