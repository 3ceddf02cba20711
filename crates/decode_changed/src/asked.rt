// At which codes the rows stand, by first byte.
ghost use Rattle.std.specs.Prelude.{◌≡◌, ◌/◌, ◌%◌};
ghost use Rattle.by_manual.specs.Changed.{change74, change76, change_7A, change_7C, change_7D, change_EB};
ghost use Rattle.by_manual.specs.Lists.{is_changed};
ghost use Rattle.record.specs.declared.Width.{Width};

use readers::set;

// 74 and 75: MOV to the stack.
pub fn in_74(b: u8) -> bool
    ensures { (w : Width) → result ≡ is_changed (change74 w (b / 16) (b % 16)) }
{
    b / 16 == 3
}

// 76 and 77: DIVX, DIVU and ADCF.
pub fn in_76(b: u8) -> bool
    ensures { (w : Width) → result ≡ is_changed (change76 w (b / 16) (b % 16)) }
{
    set::has(0x5200, b / 16)
}

// 7A: LDC.
pub fn in_7A(b: u8) -> bool
    ensures { result ≡ is_changed (change_7A (b / 16) (b % 16)) }
{
    0x80 <= b
}

// 7C, and 7D too: MULU and MUL.
pub fn in_7C(b: u8) -> bool
    ensures { (w : Width) → result ≡ is_changed (change_7C w (b / 16) (b % 16)) }
{
    b / 32 == 2
}

// 7D: six rows, and three conditions.
pub fn in_7D(b: u8) -> bool
    ensures { result ≡ is_changed (change_7D (b / 16) (b % 16)) }
{
    if b / 16 == 13 {
        return set::has(0x6400, b % 16);
    }
    set::has(0x0C3C, b / 16)
}

// EB: FSET and FCLR.
pub fn in_EB(b: u8) -> bool
    ensures { result ≡ is_changed (change_EB (b / 16) (b % 16)) }
{
    b < 0x80 && b % 16 / 2 == 2
}
