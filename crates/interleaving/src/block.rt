// A block of a frame: how many cells it has, and how many bits an axis of each.
ghost use Rattle.interleaving.specs.Interleaving.{Sized, size};
ghost use Rattle.std.specs.Prelude.{◌≡◌, ◌↔◌, ◌*◌, IsSome, IfSome};

/// A block that a plan may have: 1 to 4 bits an axis, and 1 to 64 cells.
#[derive(Clone, Copy, PartialEq, Eq, Debug)]
pub struct Block {
    pub bits: u8,
    pub cells: u8,
    pub ghost sized: { Sized bits cells },
}

impl Block {
    /// The block of so many bits an axis and so many cells, where a plan may have it.
    pub fn new(bits: u8, cells: u8) -> Option<Block>
        ensures sized { IsSome result ↔ Sized bits cells }
        ensures bits { IfSome result (λ b. b.bits ≡ bits) }
        ensures cells { IfSome result (λ b. b.cells ≡ cells) }
    {
        if (1..=4).contains(&bits) && (1..=64).contains(&cells) {
            Some(Block { bits, cells })
        } else {
            None
        }
    }

    /// How many bits a cell has, on its two axes.
    pub fn cell_bits(self) -> usize
        ensures { result ≡ 2 * self.bits }
    {
        2 * usize::from(self.bits)
    }

    /// How many positions it has, and as many places.
    pub fn positions(self) -> usize
        ensures { result ≡ size self.bits self.cells }
    {
        self.cell_bits() * usize::from(self.cells)
    }
}
