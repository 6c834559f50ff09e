// What carries messages: a plan of frames, a code and an interleaver. The public calls of the sender.
ghost use Rattle.std.specs.Prelude.{◌≡◌, ◌+◌, ◌-◌, ◌*◌, ◌/◌, ◌^◌, ◌<◌};
ghost use Rattle.sending.specs.Links.{linked};
ghost use Rattle.sending.specs.Sends.{CarriedIfSent, Sent, all_bits};
ghost use Rattle.sending.specs.Sizes.{SizedUp};

use super::plan::{FrameSize, Plan};
use super::planned::PlannedLink;
use coding::{Code, Ending, sent_in};
use interleaving::{Block, Interleaver};
use qam::QamCell;
use refusals::Refusal;

/// A plan of frames, with the code and the interleaver that carry them.
// No `Model` by what it means: a frame's contracts say that it keeps the very plan, code and interleaver, which a model would hide.
#[derive(Clone, Copy, PartialEq, Eq, Debug)]
pub struct Link<C, E, I> {
    pub plan: Plan<E>,
    pub code: C,
    pub interleaver: I,
}

/// Whether each byte is 0 or 1.
fn all_bits(message: &[u8]) -> bool
    ensures { result ≡ all_bits message.now }
{
    message.iter().all(|&byte| byte < 2)
}

/// A count raised to whole blocks.
fn raised_to_blocks(count: usize, block: usize) -> usize
    requires some { 0 < block }
    requires fits { count + block < 2 ^ 64 }
    ensures { result ≡ (count + (block - 1)) / block * block }
{
    count.div_ceil(block) * block
}

impl<C: Code, E: Ending<C>, I: Interleaver> Link<C, E, I> {
    /// The sizes of a planned frame, or why there is no such frame.
    pub fn frame_size(&self) -> Result<FrameSize, Refusal>
        ensures { SizedUp (linked C.Code.trellis E.Ending.tail I.Interleaver.interleaving self.now) result }
    {
        let Plan {
            bits_per_axis: bits,
            message_bits,
            block_cells: cells,
            rate,
            end,
        } = self.plan;
        if !(1..=4).contains(&bits) {
            return Err(Refusal::BitsPerAxis);
        }
        if !(1..=4090).contains(&message_bits) {
            return Err(Refusal::MessageLength);
        }
        if !(1..=64).contains(&cells) {
            return Err(Refusal::BlockLength);
        }
        let block = Block { bits, cells };
        if !self.interleaver.takes(block) {
            return Err(Refusal::BlockNotTaken);
        }
        let steps = u32::from(message_bits) + u32::from(end.closing_steps(&self.code));
        let sent = sent_in(rate, steps) as usize;
        let positions = raised_to_blocks(sent, block.positions());
        Ok(FrameSize {
            steps: steps as usize,
            sent,
            block: block.positions(),
            positions,
            cells: positions / block.cell_bits(),
        })
    }

    /// Fills the front of a buffer with the cells of a message's frame, and leaves the cells behind them; refused, it changes nothing.
    pub fn send(&self, message: &[u8], cells: &mut [QamCell]) -> Result<(), Refusal>
        ensures answer { Sent (linked C.Code.trellis E.Ending.tail I.Interleaver.interleaving self.now) message.now cells.old cells.new result }
        ensures carried { CarriedIfSent (linked C.Code.trellis E.Ending.tail I.Interleaver.interleaving self.now) message.now cells.new result }
    {
        let size = self.frame_size()?;
        let bits = usize::from(self.plan.message_bits);
        if message.len() < bits {
            return Err(Refusal::MessageBuffer);
        }
        let message = &message[..bits];
        if !all_bits(message) {
            return Err(Refusal::MessageBit);
        }
        if cells.len() < size.cells {
            return Err(Refusal::CellBuffer);
        }
        let planned = PlannedLink { link: *self };
        planned.fill(message, &mut cells[..size.cells]);
        Ok(())
    }
}
