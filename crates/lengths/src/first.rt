// Made by scripts/tables/make-lengths from the stored answers: where a first byte's row is; none, where it has none.
ghost use Rattle.std.specs.Prelude.{◌≡◌, Some, None};
ghost use Rattle.laws.specs.Choice.{pick};
ghost use Rattle.rows.specs.Groups.{known};
ghost use Rattle.lengths.specs.steps.Entry.{place};

#[tactic(auto, unfolding(crate::specs::steps::Entry::place, rows::specs::Groups::known))]
pub(crate) fn place_of(a: u8) -> Option<usize>
    ensures { result ≡ pick (known a) (Some (place a)) None }
{
    match a {
        0x74 => Some(0),
        0x75 => Some(1),
        0x76 => Some(2),
        0x77 => Some(3),
        0x78 => Some(4),
        0x79 => Some(5),
        0x7A | 0x7B => Some(6),
        0x7C => Some(7),
        0x7D => Some(8),
        0x7E => Some(9),
        0xEB => Some(10),
        0xEC | 0xED => Some(11),
        0x72
        | 0x73
        | 0x80
        | 0x81
        | 0x88
        | 0x89
        | 0x90
        | 0x91
        | 0x98
        | 0x99
        | 0xA0
        | 0xA1
        | 0xA8
        | 0xA9
        | 0xB0
        | 0xB1
        | 0xB8
        | 0xB9
        | 0xC0
        | 0xC1 => Some(12),
        _ => None,
    }
}
