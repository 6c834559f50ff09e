// Gray labels: level number i has the label i xor i / 2.
ghost use Rattle.std.specs.Prelude.{◌≡◌, IfSome};
ghost use Rattle.qam.specs.Levels.{SoleLabel, label as gray_label, label_bit, number_labelled, reading_labelled};

use crate::axis::Axis;

/// The label of a level number.
pub fn label(number: u8) -> u8
    ensures { result ≡ gray_label number }
{
    number ^ (number / 2)
}

/// Bit k, from 1 and the highest first, of the label of a level number in m bits.
pub fn label_bit(m: u8, k: u8, number: u8) -> u8
    ensures { result ≡ label_bit m k number }
{
    let below = m.saturating_sub(k);
    if below < 8 {
        (label(number) >> below) % 2
    } else {
        0
    }
}

/// The level number of an axis with m bits that has this label.
pub fn number_labelled(m: u8, label: u8) -> Option<u8>
    ensures value { result ≡ number_labelled m label }
    ensures sole { IfSome result (λ i. SoleLabel m label i) }
{
    Axis::try_from(m).ok()?.number_labelled(label)
}

/// The level, in steps, of an axis with m bits that has this label.
pub fn reading_labelled(m: u8, label: u8) -> Option<i16>
    ensures { result ≡ reading_labelled m label }
{
    let axis = Axis::try_from(m).ok()?;
    Some(axis.level(axis.number_labelled(label)?))
}
