// Why a function refuses. scripts/interface takes names, numbers and comments into the header and the Rust crate, where 0 is done.
ghost use Rattle.std.specs.Prelude.{◌≡◌};
ghost use Rattle.record.specs.Answer.{number_of, refusal_in, length_in};

#[derive(Clone, Copy, PartialEq, Eq)]
pub enum Refusal {
    ExhaustedInput = 1, // decoding: the image ends inside the instruction; asked for a length: there are fewer than two bytes
    InvalidOpcode = 2, // decoding: no instruction has this code or this condition byte
    InvalidOperand = 3, // decoding: the instruction does not take this operand
    FirstByteOutside = 4, // decoding: not one of the 34 first bytes that are decoded here
    NoString = 5, // encoding: no bytes decode to this instruction, but for those of marked rows; asked for a number: there is none
    TooLittleRoom = 6, // what was passed in for the result is too short
    ImageTooLong = 7, // sweeping: the image is longer than 4,096 bytes
}

// A refused decoding: why, and how many bytes it took.
#[derive(Clone, Copy, PartialEq, Eq)]
pub struct Refused {
    pub why: Refusal,
    pub taken: usize,
}

impl From<Refusal> for u8 {
    ghost from_gives = { λ x r. r ≡ number_of x };

    fn from(x: Refusal) -> u8 {
        x as u8
    }
}

impl From<Refusal> for u32 {
    ghost from_gives = { λ x r. r ≡ number_of x };

    fn from(x: Refusal) -> u32 {
        x as u32
    }
}

// What C is told of a result: its number is returned, its length left.
pub fn leave(r: Result<usize, Refusal>, length: &mut usize) -> u32
    ensures { (result ≡ refusal_in r) × (length.new ≡ length_in r) }
{
    match r {
        Ok(n) => {
            *length = n;
            0
        }
        Err(why) => {
            *length = 0;
            u32::from(why)
        }
    }
}
