// The frames: moved values that keep what they were opened with, and how many cells have come. Stores are lent at each call.
ghost use Rattle.receiver.specs.Checks.{Checked};
ghost use Rattle.sending.specs.Links.{Planned, linked};
ghost use Rattle.std.specs.Prelude.{◌≡◌, length};

use coding::{Code, Ending};
use interleaving::{Block, Interleaver, Layout};
use refusals::Refusal;
use sending::{FrameSize, Link};

/// What a frame was opened with.
#[derive(Drop)]
pub struct Setup<C, E, I, D> {
    pub(crate) link: Link<C, E, I>,
    pub(crate) demapper: D,
}

impl<C: Code, E: Ending<C>, I: Interleaver, D> Setup<C, E, I, D> {
    /// The sizes of the frame, where its plan is granted and the soft store has a number for each position.
    pub(crate) fn checked(&self, soft: &[i32]) -> Result<FrameSize, Refusal>
        ensures { Checked (linked C.Code.trellis E.Ending.tail I.Interleaver.interleaving self.now.link) (length soft.now) result }
    {
        let size = self.link.frame_size()?;
        if soft.len() < size.positions {
            return Err(Refusal::SoftNumbers);
        }
        Ok(size)
    }

    /// Where the positions of a block lie, of a plan that is granted.
    // The sender makes its layout alike. A public function for both could only answer an Option, and each would unwrap it; and a
    // public `PlannedLink` with this one method, made from a link and its sizes, would be no plainer.
    pub(crate) fn layout(&self) -> Layout<I>
        requires { Planned (linked C.Code.trellis E.Ending.tail I.Interleaver.interleaving self.now.link) }
        ensures interleaver { result.interleaver ≡ self.now.link.interleaver }
        ensures bits { result.block.bits ≡ self.now.link.plan.bits_per_axis }
        ensures cells { result.block.cells ≡ self.now.link.plan.block_cells }
    {
        let block = Block {
            bits: self.link.plan.bits_per_axis,
            cells: self.link.plan.block_cells,
        };
        Layout {
            interleaver: self.link.interleaver,
            block,
        }
    }
}

/// A frame that takes cells.
#[derive(Drop)]
pub struct FillingFrame<C, E, I, D> {
    pub(crate) setup: Setup<C, E, I, D>,
    pub(crate) taken: usize,
}

/// A frame whose cells have all come; it can be decoded.
#[derive(Drop)]
pub struct SealedFrame<C, E, I, D> {
    pub(crate) setup: Setup<C, E, I, D>,
    pub(crate) taken: usize,
}
