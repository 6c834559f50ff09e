// The cells of the message, a line each, or the refusal in one line.
use super::options::Options;
use anyhow::anyhow;
use coding::{CodeKind, End};
use interleaving::InterleaverKind;
use qam::QamCell;
use refusals::Refusal;
use sending::{Link, Plan};
use std::alloc::Global;
use std::io;

/// The link that the options and the message's length make. A length that no plan could name stays one that every plan refuses.
fn link_of(options: &Options) -> Link<CodeKind, End, InterleaverKind> {
    Link {
        plan: Plan {
            bits_per_axis: options.bits,
            message_bits: u16::try_from(options.message.len()).unwrap_or(u16::MAX),
            block_cells: options.block,
            rate: options.rate,
            end: options.end,
        },
        code: options.code,
        interleaver: options.interleaver,
    }
}

/// A refusal as an error in one line.
// The conformance program has the like with another text: each program prints its own, and a library allocates no error.
fn refused(refusal: Refusal) -> anyhow::Error {
    let number = refusal.number();
    anyhow!("refused {number}: {refusal}")
}

/// The cells of the message's frame.
// The conformance program has the like: a library allocates nothing, so each program makes the buffer itself.
fn cells_of(heap: Global, options: &Options) -> anyhow::Result<Vec<QamCell>> {
    let link = link_of(options);
    let size = link.frame_size().map_err(refused)?;
    let mut cells = vec![in heap; QamCell::default(); size.cells]?;
    link.send(options.message.as_slice(), cells.as_mut_slice())
        .map_err(refused)?;
    Ok(cells)
}

/// Prints a line for each cell.
fn print_lines(rt: &HostRuntime, cells: &[QamCell]) -> io::Result<()> {
    for cell in cells {
        let QamCell {
            in_phase,
            quadrature,
            weight,
        } = *cell;
        println!(rt; "{in_phase} {quadrature} {weight}")?;
    }
    Ok(())
}

pub fn print_cells(rt: &HostRuntime, options: &Options) -> anyhow::Result<()> {
    let cells = cells_of(rt.alloc(), options)?;
    print_lines(rt, cells.as_slice())?;
    Ok(())
}
