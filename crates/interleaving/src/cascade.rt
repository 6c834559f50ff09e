// One interleaver after another, and the two steps of IEEE 802.11a as such a cascade.
ghost use Rattle.interleaving.specs.Interleaving.{cascade};
ghost use Rattle.std.specs.Prelude.{◌≡◌};

use super::block::Block;
use super::interleaver::Interleaver;
use super::steps::{FirstStep, SecondStep};

/// One interleaver and then another: it takes what both take.
#[derive(Clone, Copy, PartialEq, Eq, Debug)]
pub struct Cascade<A, B> {
    pub inner: A,
    pub outer: B,
}

impl<A: Interleaver, B: Interleaver> Interleaver for Cascade<A, B> {
    ghost interleaving = { λ s. cascade (A.Interleaver.interleaving s.inner) (B.Interleaver.interleaving s.outer) };

    fn takes(&self, block: Block) -> bool {
        self.inner.takes(block) && self.outer.takes(block)
    }

    fn place(&self, block: Block, position: usize) -> usize {
        let between = self.inner.place(block, position);
        self.outer.place(block, between)
    }

    fn position(&self, block: Block, place: usize) -> usize {
        let between = self.outer.position(block, place);
        self.inner.position(block, between)
    }
}

/// The two steps, one after the other.
pub type TwoStep = Cascade<FirstStep, SecondStep>;

/// The interleaver of IEEE 802.11a, with 16 columns: it takes a block where 8 divides its cells.
pub fn two_step() -> TwoStep
    ensures first { result.inner.columns ≡ 16 }
    ensures second { result.outer.columns ≡ 16 }
{
    Cascade {
        inner: FirstStep { columns: 16 },
        outer: SecondStep { columns: 16 },
    }
}
