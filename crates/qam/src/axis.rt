// One axis of a constellation: how many bits it has, and its levels.
ghost use Rattle.std.specs.Prelude.{◌≡◌, ◌^◌, ◌<◌, ◌≤◌, IfSome, MatchResult};
ghost use Rattle.qam.specs.Levels.{Axis as IsAxis, SoleLabel, labelled, number_labelled, reading};

use crate::range::OutOfRange;

/// An axis with 1 to 4 bits.
#[derive(Clone, Copy, PartialEq, Eq, Debug)]
pub struct Axis {
    pub bits: u8,
    pub ghost is_axis: { IsAxis bits },
}

impl TryFrom<u8> for Axis {
    type Error = OutOfRange;

    ghost try_from_gives = { λ bits r. MatchResult r (λ axis. axis.bits ≡ bits) (λ _. ¬ IsAxis bits) };

    fn try_from(bits: u8) -> Result<Axis, OutOfRange> {
        if (1..=4).contains(&bits) {
            Ok(Axis { bits })
        } else {
            Err(OutOfRange)
        }
    }
}

impl Axis {
    /// How many levels it has.
    #[tactic(auto, using(crate::proofs::Axes::levels_few))]
    pub fn levels(self) -> u8
        ensures value { result ≡ 2 ^ self.bits }
        ensures few { result ≤ 16 }
    {
        1 << self.bits
    }

    /// The level of this number, in steps.
    pub fn level(self, number: u8) -> i16
        ensures { result ≡ reading self.bits number }
    {
        64 * (2 * i16::from(number) - (i16::from(self.levels()) - 1))
    }

    /// The number of the level that has this label, which is a label of the axis.
    fn numbered(self, label: u8) -> u8
        requires { label < 2 ^ self.bits }
        ensures value { result ≡ labelled self.bits label }
        ensures sole { SoleLabel self.bits label result }
    {
        label ^ (label / 2) ^ (label / 4) ^ (label / 8)
    }

    /// The number of the level that has this label.
    pub fn number_labelled(self, label: u8) -> Option<u8>
        ensures value { result ≡ number_labelled self.bits label }
        ensures sole { IfSome result (λ i. SoleLabel self.bits label i) }
    {
        if label < self.levels() {
            Some(self.numbered(label))
        } else {
            None
        }
    }
}
