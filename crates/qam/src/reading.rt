// A reading of one axis, in steps.
ghost use Rattle.std.specs.Prelude.{◌≡◌, ◌<◌, ◌≤◌, MatchResult, unsigned_abs};

use crate::range::OutOfRange;

/// A reading from −2,047 to 2,047 steps, 64 to a unit of level.
#[derive(Clone, Copy, PartialEq, Eq, PartialOrd, Ord, Debug)]
pub struct Reading {
    pub steps: i16,
    pub ghost in_range: { unsigned_abs steps ≤ 2047 },
}

impl TryFrom<i16> for Reading {
    type Error = OutOfRange;

    ghost try_from_gives = { λ steps r. MatchResult r (λ reading. reading.steps ≡ steps) (λ _. 2047 < unsigned_abs steps) };

    fn try_from(steps: i16) -> Result<Reading, OutOfRange> {
        if (-2047..=2047).contains(&steps) {
            Ok(Reading { steps })
        } else {
            Err(OutOfRange)
        }
    }
}
