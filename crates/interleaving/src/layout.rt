// Where the positions of a frame lie: an interleaver, and a block that it takes.
ghost use Rattle.interleaving.specs.Blocks.{bit_of, cell_of};
ghost use Rattle.std.specs.Prelude.{◌≡◌, ◌↔◌, ◌*◌, ◌<◌, true, IsSome, IfSome};

use super::block::Block;
use super::interleaver::Interleaver;

/// An interleaver with a block that it takes: so each position of a frame of such blocks is one bit of one cell.
#[derive(Drop)]
pub struct Layout<I: Interleaver> {
    pub interleaver: I,
    pub block: Block,
    pub ghost taken: { (I.Interleaver.interleaving interleaver).takes block.bits block.cells ≡ true },
}

impl<I: Interleaver> Layout<I> {
    /// An interleaver and a block, where it takes the block.
    pub fn new(interleaver: I, block: Block) -> Option<Layout<I>>
        ensures taken { IsSome result ↔ ((I.Interleaver.interleaving interleaver).takes block.bits block.cells ≡ true) }
        ensures interleaver { IfSome result (λ l. l.interleaver ≡ interleaver) }
        ensures block { IfSome result (λ l. l.block ≡ block) }
    {
        if interleaver.takes(block) {
            Some(Layout { interleaver, block })
        } else {
            None
        }
    }

    /// The cell that carries a position of the frame, and which of its bits, from 0.
    pub fn cell_and_bit(&self, position: usize) -> (usize, usize)
        ensures cell { result.0 ≡ cell_of (I.Interleaver.interleaving self.now.interleaver) self.now.block.bits self.now.block.cells position }
        ensures bit { result.1 ≡ bit_of (I.Interleaver.interleaving self.now.interleaver) self.now.block.bits self.now.block.cells position }
        ensures inside { result.1 < 2 * self.now.block.bits }
    {
        let positions = self.block.positions();
        let cell_bits = self.block.cell_bits();
        let place = self.interleaver.place(self.block, position % positions);
        let first = position / positions * usize::from(self.block.cells);
        (first + place / cell_bits, place % cell_bits)
    }
}
