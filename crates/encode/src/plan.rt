// A code, and what stands behind it.
ghost use Rattle.std.specs.Prelude.{◌≤◌};

// A number in so many bytes.
#[derive(Clone, Copy)]
pub struct Number {
    pub count: u8,
    pub value: u32,
    pub ghost short: { count ≤ 3 },
}

impl Number {
    pub(crate) const NONE: Number = Number { count: 0, value: 0 };
}

// The two bytes of a code, and two numbers behind them.
#[derive(Clone, Copy)]
pub struct Plan {
    pub first: u8,
    pub second: u8,
    pub number: Number,
    pub rest: Number,
}

impl Plan {
    ghost use Rattle.std.specs.Prelude.{◌≡◌, length};
    ghost use Rattle.encode.specs.steps.Plan.{planned};

    // How many bytes it is.
    #[tactic(auto, using(crate::proofs::Put::planned_length))]
    pub(crate) fn length(self) -> usize
        ensures { result ≡ length (planned self) }
    {
        2 + usize::from(self.number.count) + usize::from(self.rest.count)
    }
}
