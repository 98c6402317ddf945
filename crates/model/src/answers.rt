// How answers are printed: three named numbers, as in `verdict=0 place=0 goals=1`.
use crate::{Outcome, Verdict};
use std::fmt;

impl fmt::Display for Verdict {
    fn fmt<W: fmt::Write>(&self, f: &mut fmt::Formatter<W>) -> fmt::Result {
        write!(
            f,
            "verdict={} place={} goals={}",
            self.number, self.place, self.goals
        )
    }
}

impl fmt::Display for Outcome {
    fn fmt<W: fmt::Write>(&self, f: &mut fmt::Formatter<W>) -> fmt::Result {
        write!(
            f,
            "run={} place={} steps={}",
            self.number, self.place, self.steps
        )
    }
}
