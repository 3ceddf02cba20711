ghost use Rattle.std.specs.Prelude.{◌≡◌};
ghost use Rattle.rows.specs.Rows.{bad_mul};
ghost use Rattle.readers.specs.steps.Width.{width_of};

use crate::set;

// The Rust's `(size, dest_code)`: a destination that MUL and MULU refuse, 1, 3 and 5 at B, 2, 3 and 5 at W.
pub fn bad_mul(byte: bool, n: u8) -> bool
    ensures { result ≡ bad_mul (width_of byte) n }
{
    if byte {
        return set::has(0x2A, n);
    }
    set::has(0x2C, n)
}
