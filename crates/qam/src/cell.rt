// A cell: one reading an axis, and how much the channel is to be trusted.

/// A QAM cell: the readings in steps, 64 to a unit of level, and the channel weight.
#[derive(Clone, Copy, PartialEq, Eq, Debug, Default)]
pub struct QamCell {
    pub in_phase: i16,
    pub quadrature: i16,
    pub weight: u16,
}
