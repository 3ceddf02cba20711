// How many lines of each verdict were met. No run reads 2 ^ 64 lines, so no count wraps.
ghost use Rattle.std.specs.Prelude.{◌≡◌, ◌==◌, nat_lt};
ghost use Rattle.replay.specs.Tally.{counted};

use crate::verdict::Verdict;
use std::fmt;

#[derive(Clone, Copy, Default)]
pub struct Tally {
    pub answers: u64,
    pub differ: u64,
    pub malformed: u64,
    // The first malformed line's number, counted from 1.
    pub first_malformed: Option<u64>,
}

impl Tally {
    pub fn agreed(mut self) -> Self
        ensures { result ≡ counted Verdict.Agrees self }
    {
        self.answers = self.answers.wrapping_add(1);
        self
    }

    pub fn differed(mut self) -> Self
        ensures { result ≡ counted Verdict.Differs self }
    {
        self.answers = self.answers.wrapping_add(1);
        self.differ = self.differ.wrapping_add(1);
        self
    }

    pub fn malformed(mut self) -> Self
        ensures { result ≡ counted Verdict.Malformed self }
    {
        self.malformed = self.malformed.wrapping_add(1);
        if self.malformed == 1 {
            self.first_malformed = Some(self.answers.wrapping_add(1));
        }
        self
    }

    pub fn none_differs(self) -> bool
        ensures { result ≡ (self.differ == 0) }
    {
        self.differ == 0
    }

    pub fn any_malformed(self) -> bool
        ensures { result ≡ nat_lt 0 self.malformed }
    {
        0 < self.malformed
    }
}

impl fmt::Display for Tally {
    fn fmt<W: fmt::Write>(&self, f: &mut fmt::Formatter<W>) -> fmt::Result {
        let answers = self.answers;
        let differ = self.differ;
        let malformed = self.malformed;
        match self.first_malformed {
            Some(first) if self.any_malformed() => {
                writeln!(f, "first malformed line: {first}")?;
                write!(
                    f,
                    "{answers} answers, {differ} differ, {malformed} malformed"
                )
            }
            _ => write!(f, "{answers} answers, {differ} differ"),
        }
    }
}
