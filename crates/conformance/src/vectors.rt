// The encoded packet that IEEE 802.11a prints in its annex: SIGNAL field and first DATA symbol, coded and interleaved.
use super::frames::{Frame, bits_of, cells_of};
use coding::{CodeKind, End, Rate};
use interleaving::InterleaverKind;
use qam::QamCell;

// 24 bits with the tail of six zeros, which are the closing inputs.
const SIGNAL: &[u8] = b"101100010011000000";

const SIGNAL_CODED: &[u8] = b"110100011010000100000010001111100111000000000000";

const SIGNAL_INTERLEAVED: &[u8] = b"100101001101000000010100100000110010010010010100";

// The first DATA symbol of 144 scrambled bits at rate 3/4. Of the coded bits the first 152 are published, of the interleaved the first 128.
const DATA: &[u8] =
    b"011011000001100110001001100011110110100000100001111101001010010101100001010011111101011110101110001001000000110011110011001110101110010010111100";

const DATA_CODED: &[u8] =
    b"00101011000010001010000111110000100111011011010110011010000111010100101011111011111010001100001010001111110000001100100001110011110000000100001111100000";

const DATA_INTERLEAVED: &[u8] =
    b"01110111111100001110111111000100011100110000000010111111000100010001000010011010000111010001001001101110001110001111010101101001";

// The first six cells of that symbol, in levels.
const DATA_LEVELS: [(i16, i16); 6] = [(-1, 1), (-1, 1), (1, 1), (-3, -3), (1, 3), (1, 1)];

/// How many of the expected digits the bits have in their places.
fn agreeing(bits: &[u8], expected: &[u8]) -> usize {
    bits.iter()
        .zip(expected)
        .filter(|(bit, digit)| bit.wrapping_add(b'0') == **digit)
        .count()
}

fn compare(
    rt: &HostRuntime,
    name: &str,
    frame: Frame,
    message: &[u8],
    expected: &[u8],
) -> anyhow::Result<()> {
    let cells = cells_of(rt.alloc(), frame, message)?;
    let bits = bits_of(rt.alloc(), frame.bits, cells.as_slice())?;
    let count = agreeing(bits.as_slice(), expected);
    let of = expected.len();
    println!(rt; "{name}: {count} of {of} published bits agree")?;
    Ok(())
}

/// Whether a cell stands at a level, given in units.
fn stands_at(cell: QamCell, level: (i16, i16)) -> bool {
    let whole = cell.in_phase % 64 == 0 && cell.quadrature % 64 == 0;
    whole && (cell.in_phase / 64, cell.quadrature / 64) == level
}

fn levels(rt: &HostRuntime, frame: Frame, message: &[u8]) -> anyhow::Result<()> {
    let cells = cells_of(rt.alloc(), frame, message)?;
    let count = cells
        .as_slice()
        .iter()
        .zip(&DATA_LEVELS)
        .filter(|(cell, level)| stands_at(**cell, **level))
        .count();
    println!(rt; "first cells of the first DATA symbol: {count} of 6 agree")?;
    Ok(())
}

pub fn run(rt: &HostRuntime) -> anyhow::Result<()> {
    let signal = Frame {
        bits: 1,
        block: 24,
        rate: Rate::Half,
        code: CodeKind::Long,
        end: End::Closed,
        interleaver: InterleaverKind::Straight,
    };
    compare(rt, "SIGNAL coded", signal, SIGNAL, SIGNAL_CODED)?;
    let signal = Frame {
        interleaver: InterleaverKind::TwoStep,
        ..signal
    };
    compare(rt, "SIGNAL interleaved", signal, SIGNAL, SIGNAL_INTERLEAVED)?;
    let data = Frame {
        bits: 2,
        block: 48,
        rate: Rate::ThreeQuarters,
        code: CodeKind::Long,
        end: End::Open,
        interleaver: InterleaverKind::Straight,
    };
    compare(rt, "first DATA symbol coded", data, DATA, DATA_CODED)?;
    let data = Frame {
        interleaver: InterleaverKind::TwoStep,
        ..data
    };
    compare(
        rt,
        "first DATA symbol interleaved",
        data,
        DATA,
        DATA_INTERLEAVED,
    )?;
    levels(rt, data, DATA)
}
