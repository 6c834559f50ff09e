// The code at work on a planned link: from the message to the labels of the frame's cells, step by step, and to its levels.
ghost use Rattle.std.specs.Prelude.{◌≡◌, ℕ, ◌+◌, ◌^◌, ◌<◌, List, [], ◌++◌, length};
ghost use Rattle.coding.specs.Encoding.{sent_at, sent_bits};
ghost use Rattle.paths.specs.Endings.{closing_input};
ghost use Rattle.paths.specs.Paths.{Inputs};
ghost use Rattle.sending.specs.Cells.{sent_cells};
ghost use Rattle.sending.specs.Labelling.{HoldsFor, TakingFor};
ghost use Rattle.sending.specs.Links.{Planned, cells as frame_cells, linked};
ghost use Rattle.sending.specs.PlannedOnce.{Planned-prop};

use super::label::{blank, modulate, put_if_sent};
use super::link::Link;
use coding::{Code, Ending, sent_code_bits};
use interleaving::{Block, Interleaver, Layout};
use qam::{Axis, QamCell};

/// A link whose plan no row refuses, with a lawful end.
#[derive(Drop)]
pub(crate) struct PlannedLink<C: Code, E: Ending<C>, I: Interleaver> {
    pub(crate) link: Link<C, E, I>,
    pub(crate) ghost planned: { Planned (linked C.Code.trellis E.Ending.tail I.Interleaver.interleaving link) } by { Planned-prop (linked C.Code.trellis E.Ending.tail I.Interleaver.interleaving link) },
}

/// How far an encoder is: the number of the next step, the state before it, and the position of its first sent bit.
#[derive(Clone, Copy)]
struct Progress {
    step: usize,
    state: u8,
    position: usize,
}

impl<C: Code, E: Ending<C>, I: Interleaver> PlannedLink<C, E, I> {
    /// Where the positions of its frames lie.
    // The receiver makes its layout alike. A public function for both could only answer an Option, and each would unwrap it.
    fn layout(&self) -> Layout<I>
        ensures interleaver { result.interleaver ≡ self.now.link.interleaver }
        ensures bits { result.block.bits ≡ self.now.link.plan.bits_per_axis }
        ensures cells { result.block.cells ≡ self.now.link.plan.block_cells }
    {
        let Link {
            plan,
            interleaver,
            ..
        } = self.link;
        let block = Block {
            bits: plan.bits_per_axis,
            cells: plan.block_cells,
        };
        Layout { interleaver, block }
    }

    /// The input that closes a message in a state.
    fn closing_input(&self, state: u8) -> u8
        requires { state < (C.Code.trellis self.now.link.code).code.states }
        ensures { result ≡ closing_input (linked C.Code.trellis E.Ending.tail I.Interleaver.interleaving self.now.link).coding.tail state }
    {
        self.link.plan.end.closing_input(&self.link.code, state)
    }

    /// One step of the code: puts the bits that it sends into their labels.
    fn step(&self, at: Progress, input: u8, cells: &mut [QamCell]) -> Progress
        requires state { at.state < (C.Code.trellis self.now.link.code).code.states }
        requires input { input < 2 }
        requires few { at.step < 2 ^ 31 }
        requires short { at.position < 2 ^ 31 }
        requires taking { TakingFor (linked C.Code.trellis E.Ending.tail I.Interleaver.interleaving self.now.link) at.position (length (sent_at (linked C.Code.trellis E.Ending.tail I.Interleaver.interleaving self.now.link).coding at.step at.state input)) cells.old }
        ensures step { result.step ≡ at.step + 1 }
        ensures state { result.state ≡ (C.Code.trellis self.now.link.code).code.next at.state input }
        ensures position { result.position ≡ at.position + length (sent_at (linked C.Code.trellis E.Ending.tail I.Interleaver.interleaving self.now.link).coding at.step at.state input) }
        ensures holds { (bs : List ℕ) → length bs ≡ at.position → HoldsFor (linked C.Code.trellis E.Ending.tail I.Interleaver.interleaving self.now.link) bs cells.old → HoldsFor (linked C.Code.trellis E.Ending.tail I.Interleaver.interleaving self.now.link) (bs ++ sent_at (linked C.Code.trellis E.Ending.tail I.Interleaver.interleaving self.now.link).coding at.step at.state input) cells.new }
    {
        let (next, first, second) = self.link.code.branch(at.state, input);
        let (sends_first, sends_second) = sent_code_bits(self.link.plan.rate, at.step);
        let layout = self.layout();
        let between = put_if_sent(&layout, cells, at.position, sends_first.then_some(first));
        let after = put_if_sent(&layout, cells, between, sends_second.then_some(second));
        Progress {
            step: at.step + 1,
            state: next,
            position: after,
        }
    }

    /// Puts the sent bits of a message into the labels of its frame's cells: the message's bits are the inputs, and then what closes it.
    fn encode(&self, message: &[u8], cells: &mut [QamCell])
        requires message { Inputs self.now.link.plan.message_bits message.now }
        requires sized { length cells.old ≡ frame_cells (linked C.Code.trellis E.Ending.tail I.Interleaver.interleaving self.now.link) }
        requires blank { HoldsFor (linked C.Code.trellis E.Ending.tail I.Interleaver.interleaving self.now.link) [] cells.old }
        ensures { HoldsFor (linked C.Code.trellis E.Ending.tail I.Interleaver.interleaving self.now.link) (sent_bits (linked C.Code.trellis E.Ending.tail I.Interleaver.interleaving self.now.link).coding message.now) cells.new }
    {
        let mut at = Progress {
            step: 0,
            state: 0,
            position: 0,
        };
        for input in message {
            at = self.step(at, *input, cells);
        }
        for _ in 0..self.link.plan.end.closing_steps(&self.link.code) {
            let input = self.closing_input(at.state);
            at = self.step(at, input, cells);
        }
    }

    /// Fills exactly as many cells as a frame has with the cells of a message of so many bits.
    pub(crate) fn fill(&self, message: &[u8], cells: &mut [QamCell])
        requires message { Inputs self.now.link.plan.message_bits message.now }
        requires sized { length cells.old ≡ frame_cells (linked C.Code.trellis E.Ending.tail I.Interleaver.interleaving self.now.link) }
        ensures { cells.new ≡ sent_cells (linked C.Code.trellis E.Ending.tail I.Interleaver.interleaving self.now.link) message.now }
    {
        blank(cells);
        self.encode(message, cells);
        let axis = Axis {
            bits: self.link.plan.bits_per_axis,
        };
        modulate(axis, cells);
    }
}
