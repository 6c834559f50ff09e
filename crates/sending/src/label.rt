// The labels of a frame's cells: the axes of each cell hold labels until these become levels.
ghost use Rattle.std.specs.Prelude.{◌≡◌, ℕ, ◌+◌, ◌-◌, ◌*◌, ◌^◌, ◌<◌, ◌≤◌, List, [], ◌∷◌, ◌++◌, IfSome, length, option_to_list, pos, slice_index_or};
ghost use Rattle.qam.specs.Levels.{labelled, reading};
ghost use Rattle.sending.specs.Cells.{at_levels};
ghost use Rattle.sending.specs.Labelling.{Holds, Labels, Taking, holding, raised_to, with_bit};
ghost use Rattle.qam.specs.declared.cell.QamCell.{QamCell as CellModel};

use interleaving::{Interleaver, Layout};
use qam::{Axis, QamCell};

// A bit is a byte 0 or 1 by rule, as in a message and in what `Code::branch` answers: so `bit < 2` below, and no type of its own.

/// A label with one of its bits, so many below the highest, raised from 0.
fn raised(label: i16, below: usize, bit: u8) -> i16
    requires label { (p : ℕ) × (p < 16) × (label ≡ pos p) }
    requires below { below < 4 }
    requires bit { bit < 2 }
    ensures { (p : ℕ) → label ≡ pos p → result ≡ pos (raised_to p below bit) }
{
    label + i16::from(bit << below)
}

/// A cell with one of its bits raised from 0.
fn cell_with_bit(axis: Axis, cell: QamCell, at: usize, bit: u8) -> QamCell
    requires labels { Labels axis.bits cell }
    requires inside { at < 2 * axis.bits }
    requires bit { bit < 2 }
    ensures { (p q : ℕ) → cell ≡ holding p q → result ≡ with_bit axis.bits at bit p q }
{
    let m = usize::from(axis.bits);
    if at < m {
        QamCell {
            in_phase: raised(cell.in_phase, m - 1 - at, bit),
            ..cell
        }
    } else {
        QamCell {
            quadrature: raised(cell.quadrature, 2 * m - 1 - at, bit),
            ..cell
        }
    }
}

/// Puts the bit of a position into the label of its cell.
fn put_bit<I: Interleaver>(layout: &Layout<I>, cells: &mut [QamCell], position: usize, bit: u8)
    requires bit { bit < 2 }
    requires taking { Taking (I.Interleaver.interleaving layout.now.interleaver) layout.now.block.bits layout.now.block.cells position 1 cells.old }
    ensures { (bs : List ℕ) → length bs ≡ position → Holds (I.Interleaver.interleaving layout.now.interleaver) layout.now.block.bits layout.now.block.cells bs cells.old → Holds (I.Interleaver.interleaving layout.now.interleaver) layout.now.block.bits layout.now.block.cells (bs ++ bit ∷ []) cells.new }
{
    let (cell, at) = layout.cell_and_bit(position);
    let axis = Axis {
        bits: layout.block.bits,
    };
    cells[cell] = cell_with_bit(axis, cells[cell], at, bit);
}

/// Puts a code bit, if one is sent, into its label, and answers the position of the next bit.
pub(crate) fn put_if_sent<I: Interleaver>(
    layout: &Layout<I>,
    cells: &mut [QamCell],
    position: usize,
    sent: Option<u8>,
) -> usize
    requires short { position < 2 ^ 32 }
    requires bit { IfSome sent (λ bit. bit < 2) }
    requires taking { Taking (I.Interleaver.interleaving layout.now.interleaver) layout.now.block.bits layout.now.block.cells position (length (option_to_list sent)) cells.old }
    ensures position { result ≡ position + length (option_to_list sent) }
    ensures holds { (bs : List ℕ) → length bs ≡ position → Holds (I.Interleaver.interleaving layout.now.interleaver) layout.now.block.bits layout.now.block.cells bs cells.old → Holds (I.Interleaver.interleaving layout.now.interleaver) layout.now.block.bits layout.now.block.cells (bs ++ option_to_list sent) cells.new }
{
    match sent {
        Some(bit) => {
            put_bit(layout, cells, position, bit);
            position + 1
        }
        None => position,
    }
}

/// The level, in steps, that has a label.
fn level_labelled(axis: Axis, label: i16) -> i16
    requires { (p : ℕ) × (p < 2 ^ axis.bits) × (label ≡ pos p) }
    ensures { (p : ℕ) → label ≡ pos p → result ≡ reading axis.bits (labelled axis.bits p) }
{
    axis.level(axis.number_labelled(label as u8).unwrap())
}

/// A cell whose labels have become levels.
fn cell_at_levels(axis: Axis, cell: QamCell) -> QamCell
    requires { Labels axis.bits cell }
    ensures { (p q : ℕ) → cell ≡ holding p q → result ≡ at_levels axis.bits p q }
{
    QamCell {
        in_phase: level_labelled(axis, cell.in_phase),
        quadrature: level_labelled(axis, cell.quadrature),
        ..cell
    }
}

/// A cell with the labels 0 and weight 1: positions that nothing is put into are filler, sent as 0.
const BLANK: QamCell = QamCell {
    in_phase: 0,
    quadrature: 0,
    weight: 1,
};

/// Makes each cell blank.
pub(crate) fn blank(cells: &mut [QamCell])
    ensures { (c : ℕ) (d : CellModel) → c < length cells.new → slice_index_or cells.new c d ≡ holding 0 0 }
{
    cells.fill(BLANK);
}

/// Turns the labels of each cell into levels.
pub(crate) fn modulate(axis: Axis, cells: &mut [QamCell])
    requires { (c : ℕ) (d : CellModel) → c < length cells.old → Labels axis.bits (slice_index_or cells.old c d) }
    ensures { (c : ℕ) (d : CellModel) (p q : ℕ) → c < length cells.old → slice_index_or cells.old c d ≡ holding p q → slice_index_or cells.new c d ≡ at_levels axis.bits p q }
{
    for cell in cells.iter_mut() {
        *cell = cell_at_levels(axis, *cell);
    }
}
