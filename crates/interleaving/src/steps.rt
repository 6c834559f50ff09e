// The two steps of the interleaver of IEEE 802.11a, with any number of columns.
ghost use Rattle.std.specs.Prelude.{◌≡◌};
ghost use Rattle.interleaving.specs.StepPlaces.{columns_fit};
ghost use Rattle.interleaving.specs.Steps.{first, second};

use super::block::Block;
use super::interleaver::Interleaver;

/// Whether there are columns, and they divide the block's cells counted twice.
fn columns_fit(columns: u8, block: Block) -> bool
    ensures { result ≡ columns_fit columns block.cells }
{
    columns > 0 && 2 * u16::from(block.cells) % u16::from(columns) == 0
}

/// Writes a block row by row into a table of so many columns, and reads it column by column.
// A type apart from the second step: the two share `takes` alone, as `columns_fit`, and one type would tell them apart by a flag in each other call.
#[derive(Clone, Copy, PartialEq, Eq, Debug)]
pub struct FirstStep {
    pub columns: u8,
}

impl Interleaver for FirstStep {
    ghost interleaving = { λ s. first s.columns };

    fn takes(&self, block: Block) -> bool {
        columns_fit(self.columns, block)
    }

    fn place(&self, block: Block, position: usize) -> usize {
        let columns = usize::from(self.columns);
        let rows = block.positions() / columns;
        rows * (position % columns) + position / columns
    }

    fn position(&self, block: Block, place: usize) -> usize {
        let columns = usize::from(self.columns);
        let rows = block.positions() / columns;
        columns * (place % rows) + place / rows
    }
}

/// Turns the bits of each axis by the number of their column.
// A type apart from the first step, which says why.
#[derive(Clone, Copy, PartialEq, Eq, Debug)]
pub struct SecondStep {
    pub columns: u8,
}

impl Interleaver for SecondStep {
    ghost interleaving = { λ s. second s.columns };

    fn takes(&self, block: Block) -> bool {
        columns_fit(self.columns, block)
    }

    fn place(&self, block: Block, position: usize) -> usize {
        let n = block.positions();
        let m = usize::from(block.bits);
        m * (position / m) + (position + n - usize::from(self.columns) * position / n) % m
    }

    fn position(&self, block: Block, place: usize) -> usize {
        let n = block.positions();
        let m = usize::from(block.bits);
        m * (place / m) + (place + usize::from(self.columns) * place / n) % m
    }
}
