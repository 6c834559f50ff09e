// Puncturing: which code bits of a step are sent.
ghost use Rattle.coding.specs.Letters.{rate_numbered};
ghost use Rattle.coding.specs.Names.{rate_name};
ghost use Rattle.coding.specs.Puncturing.{sends_first, sends_second, sent_before};
ghost use Rattle.refusals.specs.Names.{ReadsName, named};
ghost use Rattle.std.specs.Prelude.{◌≡◌, Some};

use refusals::UnknownName;
use std::fmt;
use std::str::FromStr;

/// The code rate after puncturing.
// Its own `TryFrom`, `FromStr` and `Display`: see `CodeKind`. Its numbers and its texts differ, so both tables stand.
#[derive(Clone, Copy, PartialEq, Eq, Debug)]
pub enum Rate {
    Half,
    TwoThirds,
    ThreeQuarters,
}

/// A row of the pattern table: which first and which second code bits are sent, step by step, before it repeats.
struct Pattern {
    first: &'static [bool],
    second: &'static [bool],
}

const PATTERNS: [Pattern; 3] = [
    Pattern {
        first: &[true],
        second: &[true],
    },
    Pattern {
        first: &[true, true],
        second: &[true, false],
    },
    Pattern {
        first: &[true, true, false],
        second: &[true, false, true],
    },
];

// The numbers of the rates are 1, 2 and 3 for 1/2, 2/3 and 3/4.
impl TryFrom<u8> for Rate {
    type Error = UnknownName;

    ghost try_from_gives = { λ number r. r ≡ named (rate_numbered number) };

    fn try_from(number: u8) -> Result<Rate, UnknownName> {
        match number {
            1 => Ok(Rate::Half),
            2 => Ok(Rate::TwoThirds),
            3 => Ok(Rate::ThreeQuarters),
            _ => Err(UnknownName),
        }
    }
}

impl FromStr for Rate {
    type Err = UnknownName;

    ghost from_str_gives = { ReadsName rate_name };

    fn from_str(name: &str) -> Result<Rate, UnknownName> {
        match name {
            "1/2" => Ok(Rate::Half),
            "2/3" => Ok(Rate::TwoThirds),
            "3/4" => Ok(Rate::ThreeQuarters),
            _ => Err(UnknownName),
        }
    }
}

impl fmt::Display for Rate {
    ghost output = { λ rate. Some (rate_name rate) };

    fn fmt<W: fmt::Write>(&self, f: &mut fmt::Formatter<W>) -> fmt::Result {
        f.write_str(match self {
            Rate::Half => "1/2",
            Rate::TwoThirds => "2/3",
            Rate::ThreeQuarters => "3/4",
        })
    }
}

/// Whether the first, and the second, code bit of a step is sent. The rows of a rate are equally long, so one division finds the place.
// Two flags: the pattern says of each code bit by itself whether it is sent, and the callers make positions or bits of them.
#[tactic(auto, unfolding(crate::specs::Puncturing::sends_first, crate::specs::Puncturing::sends_second))]
pub fn sent_code_bits(rate: Rate, step: usize) -> (bool, bool)
    ensures first { result.0 ≡ sends_first rate step }
    ensures second { result.1 ≡ sends_second rate step }
{
    let pattern = &PATTERNS[rate as usize];
    let place = step % pattern.first.len();
    (pattern.first[place], pattern.second[place])
}

/// How many bits so many steps send, without counting step by step.
#[tactic(auto, using(crate::proofs::Patterns::sent_is))]
pub fn sent_in(rate: Rate, steps: u32) -> u64
    ensures { result ≡ sent_before rate steps }
{
    let n = u64::from(steps);
    match rate {
        Rate::Half => 2 * n,
        Rate::TwoThirds => (3 * n + 1) / 2,
        Rate::ThreeQuarters => (4 * n + 2) / 3,
    }
}
