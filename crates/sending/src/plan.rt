// Plans of frames, and the sizes that follow from them.
use coding::Rate;

/// What a frame is planned with: bits per axis, message bits, cells a block, the rate, and how the frame ends.
#[derive(Clone, Copy, PartialEq, Eq, Debug)]
pub struct Plan<E> {
    pub bits_per_axis: u8,
    pub message_bits: u16,
    pub block_cells: u8,
    pub rate: Rate,
    pub end: E,
}

/// The sizes of a frame: steps of the code, sent bits, positions of a block, positions of the frame, cells.
#[derive(Clone, Copy, PartialEq, Eq, Debug)]
pub struct FrameSize {
    pub steps: usize,
    pub sent: usize,
    pub block: usize,
    pub positions: usize,
    pub cells: usize,
}
