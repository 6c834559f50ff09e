// Frames of every rate, code, end and interleaver: how many cells each has, and a sum over their readings.
use super::labels::add_label;
use alternating::Alternating;
use anyhow::{Context, anyhow};
use coding::{CodeKind, End, NoEnd, Rate};
use interleaving::{InterleaverKind, Straight};
use qam::QamCell;
use refusals::Refusal;
use sending::{Link, Plan};
use std::alloc::Global;
use std::fmt;

/// A plan but for the message's length, with the code and the interleaver.
#[derive(Clone, Copy)]
pub struct Frame {
    pub bits: u8,
    pub block: u8,
    pub rate: Rate,
    pub code: CodeKind,
    pub end: End,
    pub interleaver: InterleaverKind,
}

impl Frame {
    /// The link of such frames for messages of so many bits.
    // The program `send` makes its link alike, of its options: a literal of five fields is no library.
    fn link(self, message_bits: u16) -> Link<CodeKind, End, InterleaverKind> {
        Link {
            plan: Plan {
                bits_per_axis: self.bits,
                message_bits,
                block_cells: self.block,
                rate: self.rate,
                end: self.end,
            },
            code: self.code,
            interleaver: self.interleaver,
        }
    }
}

impl fmt::Display for Frame {
    fn fmt<W: fmt::Write>(&self, f: &mut fmt::Formatter<W>) -> fmt::Result {
        let Frame {
            bits,
            block,
            rate,
            code,
            end,
            interleaver,
        } = *self;
        write!(f, "{bits} {block} {rate} {code} {end} {interleaver}")
    }
}

/// A message from its digits, a byte a bit.
pub fn message_of(heap: Global, digits: &[u8]) -> anyhow::Result<Vec<u8>> {
    let mut message = Vec::new(heap);
    for digit in digits {
        message.push(digit.wrapping_sub(b'0'))?;
    }
    Ok(message)
}

// The program `send` has the like with the number in its text: each program prints its own, and a library allocates no error.
fn refused(refusal: Refusal) -> anyhow::Error {
    anyhow!("refused: {refusal}")
}

/// The cells of a message's frame.
// The program `send` has the like: a library allocates nothing, so each program makes the buffer itself.
pub fn cells_of(heap: Global, frame: Frame, digits: &[u8]) -> anyhow::Result<Vec<QamCell>> {
    let message = message_of(heap, digits)?;
    let link = frame.link(u16::try_from(message.len()).context("too long a message")?);
    let size = link.frame_size().map_err(refused)?;
    let mut cells = vec![in heap; QamCell::default(); size.cells]?;
    link.send(message.as_slice(), cells.as_mut_slice())
        .map_err(refused)?;
    Ok(cells)
}

/// The number of the level at which a reading stands.
// Reckoned apart from the library's levels, which it is held against.
fn number_at(m: u8, reading: i16) -> anyhow::Result<u8> {
    let levels = 1i16.wrapping_shl(u32::from(m));
    let number = (reading / 64).wrapping_add(levels).wrapping_sub(1) / 2;
    u8::try_from(number).context("a reading at no level")
}

/// The bits that cells carry, in the order of places.
pub fn bits_of(heap: Global, m: u8, cells: &[QamCell]) -> anyhow::Result<Vec<u8>> {
    let mut bits = Vec::new(heap);
    for cell in cells {
        add_label(&mut bits, m, number_at(m, cell.in_phase)?)?;
        add_label(&mut bits, m, number_at(m, cell.quadrature)?)?;
    }
    Ok(bits)
}

/// A sum over readings and weights in which each cell and each axis counts apart.
pub fn weighed(cells: &[QamCell]) -> i64 {
    cells.iter().zip(1i64..).fold(0, |sum: i64, (cell, place)| {
        let one = i64::from(cell.in_phase).wrapping_mul(place);
        let two = i64::from(cell.quadrature)
            .wrapping_mul(3)
            .wrapping_mul(place);
        sum.wrapping_add(one)
            .wrapping_add(two)
            .wrapping_add(i64::from(cell.weight))
    })
}

const MESSAGE: &[u8] = b"1101001110100001011";

fn report(rt: &HostRuntime, frame: Frame) -> anyhow::Result<()> {
    let cells = cells_of(rt.alloc(), frame, MESSAGE)?;
    let count = cells.len();
    let sum = weighed(cells.as_slice());
    println!(rt; "frame {frame}: {count} cells, sum {sum}")?;
    Ok(())
}

fn every_interleaver(rt: &HostRuntime, frame: Frame) -> anyhow::Result<()> {
    for bits in 1..5 {
        let straight = Frame { bits, ..frame };
        report(
            rt,
            Frame {
                block: 1,
                ..straight
            },
        )?;
        report(
            rt,
            Frame {
                block: 64,
                ..straight
            },
        )?;
        report(
            rt,
            Frame {
                block: 8,
                interleaver: InterleaverKind::TwoStep,
                ..straight
            },
        )?;
    }
    Ok(())
}

fn every_rate(rt: &HostRuntime, code: CodeKind, end: End) -> anyhow::Result<()> {
    for rate in [Rate::Half, Rate::TwoThirds, Rate::ThreeQuarters] {
        let frame = Frame {
            bits: 1,
            block: 1,
            rate,
            code,
            end,
            interleaver: InterleaverKind::Straight,
        };
        every_interleaver(rt, frame)?;
    }
    Ok(())
}

/// A code that is not closable: its plan names no end, and the frame is open.
fn without_end(rt: &HostRuntime) -> anyhow::Result<()> {
    let message = message_of(rt.alloc(), MESSAGE)?;
    let link = Link {
        plan: Plan {
            bits_per_axis: 2,
            message_bits: 19,
            block_cells: 4,
            rate: Rate::TwoThirds,
            end: NoEnd,
        },
        code: Alternating,
        interleaver: Straight,
    };
    let mut cells = vec![in rt.alloc(); QamCell::default(); 8]?;
    match link.send(message.as_slice(), cells.as_mut_slice()) {
        Ok(()) => {
            let sum = weighed(cells.as_slice());
            println!(rt; "frame 2 4 2/3 alternating: 8 cells, sum {sum}")?;
        }
        Err(refusal) => println!(rt; "frame 2 4 2/3 alternating: {refusal}")?,
    }
    Ok(())
}

pub fn run(rt: &HostRuntime) -> anyhow::Result<()> {
    for code in [CodeKind::Long, CodeKind::Recursive] {
        for end in [End::Closed, End::Open] {
            every_rate(rt, code, end)?;
        }
    }
    without_end(rt)
}
