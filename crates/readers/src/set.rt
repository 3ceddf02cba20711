// A set of numbers below 32: the bits of one number. (In place of a match: docs/DECISIONS.md has what it saves.)
ghost use Rattle.std.specs.Prelude.{◌≡◌};
ghost use Rattle.readers.specs.steps.Set.{holds};

pub fn has(set: u32, n: u8) -> bool
    ensures { result ≡ holds set n }
{
    if n < 32 {
        return (set >> n) % 2 == 1;
    }
    false
}
