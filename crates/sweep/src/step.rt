// What stands at a place of an image. Every walk over an image goes by it.
ghost use Rattle.std.specs.Prelude.{◌≡◌};
ghost use Rattle.rows.specs.Run.{decode_by};
ghost use Rattle.by_manual.specs.Table.{table_by};
ghost use Rattle.sweep.specs.Step.{standing};
ghost use Rattle.sweep.specs.Walk.{step_at};

use readers::answer::Decoded;

// What decoding there says; none at the image's end. (A bool for the reading, as in `decode::decode_by`.)
pub fn step_at(manual: bool, image: &[u8], place: usize) -> Option<Decoded>
    ensures { standing result ≡ step_at (decode_by (table_by manual)) image.now place }
{
    if image.len() <= place {
        return None;
    }
    Some(decode::decode_by(manual, image, place))
}
