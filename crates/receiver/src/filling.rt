// The calls on a filling frame: open, cell, lost, wipe and seal.
ghost use Rattle.receiver.specs.Calls.{CellEntered, LossEntered, Opened, SealedOrBack};
ghost use Rattle.receiver.specs.Frames.{reception_of};
ghost use Rattle.receiver.specs.SoftCells.{CellTaken};
ghost use Rattle.sending.specs.Links.{linked, positions};
ghost use Rattle.sending.specs.Sizes.{GrantedSize};
ghost use Rattle.std.specs.Prelude.{◌≡◌, ◌≤◌, length};

use super::frame::{FillingFrame, SealedFrame, Setup};
use super::soft_cell::SoftCell;
use coding::{Code, Ending};
use demapping::Demapper;
use interleaving::Interleaver;
use qam::{Axis, QamCell};
use refusals::Refusal;
use sending::{FrameSize, Link};

/// Opens a frame on a soft store.
pub(crate) fn open<C: Code, E: Ending<C>, I: Interleaver, D: Demapper>(
    link: Link<C, E, I>,
    demapper: D,
    soft: &[i32],
) -> Result<FillingFrame<C, E, I, D>, Refusal>
    ensures { Opened (reception_of C.Code.trellis E.Ending.tail I.Interleaver.interleaving D.Demapper.demapping (record { link = link; demapper = demapper })) (length soft.now) (record { link = link; demapper = demapper }) result }
{
    let setup = Setup { link, demapper };
    setup.checked(soft)?;
    Ok(FillingFrame { setup, taken: 0 })
}

impl<C: Code, E: Ending<C>, I: Interleaver, D: Demapper> FillingFrame<C, E, I, D> {
    /// Takes the next cell, unless all cells have come.
    fn take(&mut self, soft: &mut [i32], size: FrameSize, cell: &SoftCell) -> Result<(), Refusal>
        requires granted { GrantedSize (linked C.Code.trellis E.Ending.tail I.Interleaver.interleaving self.old.setup.link) size }
        requires whole { positions (linked C.Code.trellis E.Ending.tail I.Interleaver.interleaving self.old.setup.link) ≤ length soft.old }
        ensures { CellTaken (linked C.Code.trellis E.Ending.tail I.Interleaver.interleaving self.old.setup.link) cell.now self.old soft.old self.new soft.new result }
    {
        if self.taken >= size.cells {
            return Err(Refusal::FrameFull);
        }
        cell.write(&self.setup.layout(), self.taken, soft);
        self.taken += 1;
        Ok(())
    }

    /// Takes the next cell: writes its weighted soft bits at their positions.
    pub(crate) fn cell(&mut self, soft: &mut [i32], cell: QamCell) -> Result<(), Refusal>
        ensures { CellEntered (reception_of C.Code.trellis E.Ending.tail I.Interleaver.interleaving D.Demapper.demapping self.old.setup) cell self.old soft.old self.new soft.new result }
    {
        let size = self.setup.checked(soft)?;
        let axis = Axis {
            bits: self.setup.link.plan.bits_per_axis,
        };
        let soft_cell = SoftCell::demapped(&self.setup.demapper, axis, cell)?;
        self.take(soft, size, &soft_cell)
    }

    /// Takes the next cell as lost: writes zeros at its positions.
    pub(crate) fn lost(&mut self, soft: &mut [i32]) -> Result<(), Refusal>
        ensures { LossEntered (reception_of C.Code.trellis E.Ending.tail I.Interleaver.interleaving D.Demapper.demapping self.old.setup) self.old soft.old self.new soft.new result }
    {
        let size = self.setup.checked(soft)?;
        self.take(soft, size, &SoftCell::lost())
    }

    /// Forgets the cells that have come; the store keeps its numbers.
    pub(crate) fn wipe(&mut self)
        ensures { self.new ≡ record { setup = self.old.setup; taken = 0 } }
    {
        self.taken = 0;
    }

    /// Seals a full frame; refused, it hands the frame back as it was.
    pub(crate) fn seal(self) -> Result<SealedFrame<C, E, I, D>, (Refusal, FillingFrame<C, E, I, D>)>
        ensures { SealedOrBack (reception_of C.Code.trellis E.Ending.tail I.Interleaver.interleaving D.Demapper.demapping self.setup) self result }
    {
        // No `map_err` and `?`: a closure that hands the frame back would take it from the lines below.
        let cells = match self.setup.link.frame_size() {
            Ok(size) => size.cells,
            Err(refusal) => return Err((refusal, self)),
        };
        if self.taken < cells {
            return Err((Refusal::CellsMissing, self));
        }
        let FillingFrame { setup, taken } = self;
        Ok(SealedFrame { setup, taken })
    }
}
