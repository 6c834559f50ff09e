// What an interleaver is, and the one that leaves every position where it is.
ghost use Rattle.std.specs.Prelude.{◌≡◌, ◌<◌, true};
ghost use Rattle.interleaving.specs.Interleaving.{Interleaving, size, straight};

use super::block::Block;

/// Sends the positions of a block to places, and back. A fixed map: a call alters nothing.
pub trait Interleaver: Copy {
    // The interleaver's meaning, with its laws.
    ghost interleaving: { Self → Interleaving };

    /// Whether it takes a block.
    fn takes(&self, block: Block) -> bool
        ensures { result ≡ (interleaving self.now).takes block.bits block.cells };

    /// The place of a position.
    fn place(&self, block: Block, position: usize) -> usize
        requires taken { (interleaving self.now).takes block.bits block.cells ≡ true }
        requires within { position < size block.bits block.cells }
        ensures { result ≡ (interleaving self.now).place block.bits block.cells position };

    /// The position of a place.
    fn position(&self, block: Block, place: usize) -> usize
        requires taken { (interleaving self.now).takes block.bits block.cells ≡ true }
        requires within { place < size block.bits block.cells }
        ensures { result ≡ (interleaving self.now).position block.bits block.cells place };
}

/// Each position stays, and every block is taken.
#[derive(Clone, Copy, PartialEq, Eq, Debug)]
pub struct Straight;

impl Interleaver for Straight {
    ghost interleaving = { λ _. straight };

    fn takes(&self, _block: Block) -> bool {
        true
    }

    fn place(&self, _block: Block, position: usize) -> usize {
        position
    }

    fn position(&self, _block: Block, place: usize) -> usize {
        place
    }
}
