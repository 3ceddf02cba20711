// The listing of an image by document 01 or by the manual, and by a rule, written piece by piece.
#![tactic(auto)]

mod page; // the pieces, and which is next

ghost use Rattle.std.specs.Prelude.{OnOk};
ghost use Rattle.std.specs.Io.KnownBytes.{Appends};
ghost use Rattle.by_manual.specs.Table.{table_by};
ghost use Rattle.listing.specs.Listing.{listing};

use std::io;
use std::io::Write;
use sweep::Rule;

// (A bool for the reading, here and below, as in `decode::decode_by`.)
pub fn list<W: Write>(manual: bool, rule: Rule, image: &[u8], out: &mut W) -> io::Result<()>
    ensures { OnOk result (Appends (W.contents out.old) (W.contents out.new) (listing (table_by manual) rule image.now)) }
{
    let mut piece = [0u8; 8192];
    let mut next = Some(page::first(image));
    // (No iterator: each page fills the one buffer.)
    while let Some(here) = next {
        let p = page::fill(manual, rule, image, here, &mut piece);
        out.write_all(&piece[..p.length])?;
        next = p.next;
    }
    Ok(())
}
