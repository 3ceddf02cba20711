// Lines as pictures: # stands for a hex digit, anything else for itself.
ghost use Rattle.std.specs.Prelude.{◌≡◌};
ghost use Rattle.replay.specs.Form.{fits_at, Has};
ghost use Rattle.replay.specs.Verdict.{Tells};

use crate::hex;

pub const LENGTH: usize = 49;

// The characters of a line, the newline too.
pub type Line = [u8; LENGTH];

fn fits(form: u8, c: u8) -> bool
    ensures { result ≡ fits_at form c }
{
    match form {
        b'#' => hex::is_digit(c),
        _ => c == form,
    }
}

pub(crate) fn has(line: &Line, form: &Line) -> bool
    ensures { Tells result (Has form.now line.now) }
{
    form.iter().zip(line).all(|(f, c)| fits(*f, *c))
}
