// Lists several images from standard input. Before each stand a byte that says how, and two that say how many bytes follow, the higher
// first. An odd byte stops at a refused place; from 2 on it is by the manual. The gate runs it on stored examples.
#![tactic(auto)]

use std::io;
use std::io::Write;
use sweep::Rule;

fn rule_of(b: u8) -> Rule {
    if b % 2 == 0 {
        return Rule::GoOn;
    }
    Rule::Stop
}

// An image that is cut short ends it.
fn list_all<W: Write>(text: &[u8], out: &mut W) -> io::Result<()> {
    let mut rest = text;
    while let [how, high, low, behind @ ..] = rest {
        let size = 256 * usize::from(*high) + usize::from(*low);
        let Some((image, left)) = behind.split_at_checked(size) else {
            return Ok(());
        };
        listing::list(2 <= *how, rule_of(*how), image, out)?;
        rest = left;
    }
    Ok(())
}

fn main(rt: HostRuntime) -> io::Result<()> {
    let mut text = [0u8; 65536];
    let n = reading::read_full(&mut rt.stdin(), &mut text)?;
    list_all(&text[..n], &mut rt.stdout())
}
