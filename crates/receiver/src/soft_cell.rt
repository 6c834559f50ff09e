// The soft bits of a cell, and where they are written in the soft store.
ghost use Rattle.std.specs.Prelude.{◌≡◌, ℕ, ◌-◌, ◌*◌, ◌^◌, ◌<◌, ◌≤◌, length, pos, if◌then◌else◌, nat_lt, slice_index_or, unsigned_abs};
ghost use Rattle.interleaving.specs.Blocks.{spot};
ghost use Rattle.interleaving.specs.Interleaving.{size};
ghost use Rattle.receiver.specs.Stores.{Small, laid, with_cell};
ghost use Rattle.reception.specs.Entries.{weight_limit};
ghost use Rattle.softbits.specs.Demapping.{soft_limit};

use demapping::Demapper;
use interleaving::{Interleaver, Layout};
use qam::{Axis, QamCell, Reading};
use refusals::Refusal;

/// The position of a bit of a cell of a frame.
fn spot<I: Interleaver>(layout: &Layout<I>, cell: usize, bit: usize) -> usize
    requires bit { bit < 2 * layout.now.block.bits }
    requires fits { spot (I.Interleaver.interleaving layout.now.interleaver) layout.now.block.bits layout.now.block.cells cell bit < 2 ^ 64 }
    ensures { result ≡ spot (I.Interleaver.interleaving layout.now.interleaver) layout.now.block.bits layout.now.block.cells cell bit }
{
    let block = layout.block;
    let cells = usize::from(block.cells);
    let place = cell % cells * block.cell_bits() + bit;
    cell / cells * block.positions() + layout.interleaver.position(block, place)
}

/// What a demapper answers for the two axes of a cell, and the weight of the cell.
#[derive(Clone, Copy)]
pub(crate) struct SoftCell {
    pub(crate) in_phase: [i32; 4],
    pub(crate) quadrature: [i32; 4],
    pub(crate) weight: u16,
    ghost light: { weight ≤ weight_limit },
    ghost small_in_phase: { Small in_phase },
    ghost small_quadrature: { Small quadrature },
}

impl SoftCell {
    ghost use Rattle.receiver.specs.SoftCells.{Demapped};

    /// What a demapper answers for a cell, or why the cell is refused.
    pub(crate) fn demapped<D: Demapper>(
        demapper: &D,
        axis: Axis,
        cell: QamCell,
    ) -> Result<SoftCell, Refusal>
        ensures { Demapped (D.Demapper.demapping demapper.now) axis.bits cell result }
    {
        let (Ok(in_phase), Ok(quadrature)) = (
            Reading::try_from(cell.in_phase),
            Reading::try_from(cell.quadrature),
        ) else {
            return Err(Refusal::ReadingRange);
        };
        if cell.weight > 1023 {
            return Err(Refusal::WeightRange);
        }
        Ok(SoftCell {
            in_phase: demapper.soft(axis, in_phase),
            quadrature: demapper.soft(axis, quadrature),
            weight: cell.weight,
        })
    }

    /// What a lost cell brings: zeros.
    pub(crate) fn lost() -> SoftCell
        ensures { result.weight ≡ 0 }
    {
        SoftCell {
            in_phase: [0; 4],
            quadrature: [0; 4],
            weight: 0,
        }
    }

    /// The answer for a bit of the cell, counted from 0, with m bits an axis.
    fn answer(&self, m: usize, bit: usize) -> i32
        requires few { m ≤ 4 }
        requires inside { bit < 2 * m }
        ensures value { result ≡ (if nat_lt bit m then slice_index_or self.now.in_phase bit (pos 0) else slice_index_or self.now.quadrature (bit - m) (pos 0)) }
        ensures small { unsigned_abs result ≤ soft_limit }
    {
        if bit < m {
            self.in_phase[bit]
        } else {
            self.quadrature[bit - m]
        }
    }

    /// The weighted soft bit for a bit of the cell.
    fn weighted(&self, m: usize, bit: usize) -> i32
        requires few { m ≤ 4 }
        requires inside { bit < 2 * m }
        ensures { result ≡ laid m self.now.in_phase self.now.quadrature self.now.weight bit }
    {
        i32::from(self.weight) * self.answer(m, bit)
    }

    /// Writes the weighted soft bits of the cell, as cell number `at`, at its positions.
    // By the number of the bit, and no chain of the two axes' answers: it is the number that the position and the contract speak of.
    pub(crate) fn write<I: Interleaver>(&self, layout: &Layout<I>, at: usize, soft: &mut [i32])
        requires { (n : ℕ) × (n * size layout.now.block.bits layout.now.block.cells ≤ length soft.old) × (at < n * layout.now.block.cells) }
        ensures { soft.new ≡ with_cell (I.Interleaver.interleaving layout.now.interleaver) layout.now.block.bits layout.now.block.cells at (laid layout.now.block.bits self.now.in_phase self.now.quadrature self.now.weight) soft.old }
    {
        let m = usize::from(layout.block.bits);
        for bit in 0..layout.block.cell_bits() {
            soft[spot(layout, at, bit)] = self.weighted(m, bit);
        }
    }
}
