// The rows that refuse a message: each just met and just not met, and every set of rows met together.
use coding::{End, Rate, Recursive};
use interleaving::InterleaverKind;
use qam::QamCell;
use refusals::Refusal;
use sending::{Link, Plan};
use std::fmt;

/// A call of `send`: the plan's numbers, how long the buffers are, and where the message has a byte of 2.
#[derive(Clone, Copy)]
struct Case {
    bits: u8,
    message_bits: u16,
    block: u8,
    interleaver: InterleaverKind,
    bytes: usize,
    two_at: Option<usize>,
    cells: usize,
}

const MARK: QamCell = QamCell {
    in_phase: 7,
    quadrature: 7,
    weight: 7,
};

/// What came of a call: its answer, and how many cells are not the mark that stood there before.
#[derive(Clone, Copy)]
struct Outcome {
    answer: Result<(), Refusal>,
    written: usize,
}

// The number of the refusal and the count. A granted call prints 0, as the stored output has it.
impl fmt::Display for Outcome {
    fn fmt<W: fmt::Write>(&self, f: &mut fmt::Formatter<W>) -> fmt::Result {
        let number = match self.answer {
            Ok(()) => 0,
            Err(refusal) => refusal.number(),
        };
        write!(f, "{number}, {} cells written", self.written)
    }
}

fn message_of(rt: &HostRuntime, case: Case) -> anyhow::Result<Vec<u8>> {
    let mut message = vec![in rt.alloc(); 1; case.bytes]?;
    if let Some(at) = case.two_at {
        if let Some(byte) = message.get_mut(at) {
            *byte = 2;
        }
    }
    Ok(message)
}

fn attempt(rt: &HostRuntime, case: Case) -> anyhow::Result<Outcome> {
    let message = message_of(rt, case)?;
    let mut cells = vec![in rt.alloc(); MARK; case.cells]?;
    let link = Link {
        plan: Plan {
            bits_per_axis: case.bits,
            message_bits: case.message_bits,
            block_cells: case.block,
            rate: Rate::Half,
            end: End::Closed,
        },
        code: Recursive,
        interleaver: case.interleaver,
    };
    let answer = link.send(message.as_slice(), cells.as_mut_slice());
    let written = cells
        .as_slice()
        .iter()
        .filter(|cell| **cell != MARK)
        .count();
    Ok(Outcome { answer, written })
}

/// A granted call: eight cells, all rows just not met or far from it.
const BASE: Case = Case {
    bits: 1,
    message_bits: 2,
    block: 8,
    interleaver: InterleaverKind::TwoStep,
    bytes: 2,
    two_at: None,
    cells: 8,
};

fn limits_of_plans(rt: &HostRuntime) -> anyhow::Result<()> {
    let long = Case {
        interleaver: InterleaverKind::Straight,
        bytes: 5000,
        cells: 5000,
        ..BASE
    };
    for bits in [0, 1, 4, 5] {
        let outcome = attempt(rt, Case { bits, ..BASE })?;
        println!(rt; "bits per axis {bits}: {outcome}")?;
    }
    for (message_bits, base) in [(0, BASE), (1, BASE), (4090, long), (4091, long)] {
        let outcome = attempt(
            rt,
            Case {
                message_bits,
                ..base
            },
        )?;
        println!(rt; "message bits {message_bits}: {outcome}")?;
    }
    for block in [0, 1, 64, 65] {
        let outcome = attempt(rt, Case { block, ..long })?;
        println!(rt; "block cells {block}: {outcome}")?;
    }
    for (block, cells) in [(16, 16), (12, 16), (64, 64)] {
        let outcome = attempt(
            rt,
            Case {
                block,
                cells,
                ..BASE
            },
        )?;
        println!(rt; "two-step block {block}: {outcome}")?;
    }
    Ok(())
}

fn limits_of_buffers(rt: &HostRuntime) -> anyhow::Result<()> {
    let cases = [
        ("message buffer one short", Case { bytes: 1, ..BASE }),
        ("message buffer one longer", Case { bytes: 3, ..BASE }),
        (
            "a byte of 2 first",
            Case {
                two_at: Some(0),
                ..BASE
            },
        ),
        (
            "a byte of 2 last",
            Case {
                two_at: Some(1),
                ..BASE
            },
        ),
        (
            "a byte of 2 behind the message",
            Case {
                bytes: 3,
                two_at: Some(2),
                ..BASE
            },
        ),
        ("cell buffer one short", Case { cells: 7, ..BASE }),
        ("cell buffer one longer", Case { cells: 9, ..BASE }),
    ];
    for (name, case) in cases {
        let outcome = attempt(rt, case)?;
        println!(rt; "{name}: {outcome}")?;
    }
    Ok(())
}

/// The base call with a set of rows met, by the bits of the set.
// Seven tests and no loop, since each sets another field. 8 stands before 4: a block of 65 cells meets both rows, one of 12 that of 8 alone.
fn with_rows(set: u8) -> Case {
    let mut case = BASE;
    if set & 1 != 0 {
        case.bits = 5;
    }
    if set & 2 != 0 {
        case.message_bits = 4091;
    }
    if set & 8 != 0 {
        case.block = 12;
    }
    if set & 4 != 0 {
        case.block = 65;
    }
    if set & 16 != 0 {
        case.bytes = 1;
    }
    if set & 32 != 0 {
        case.two_at = Some(0);
    }
    if set & 64 != 0 {
        case.cells = 3;
    }
    case
}

fn sets_of_rows(rt: &HostRuntime) -> anyhow::Result<()> {
    for set in 0..128 {
        let outcome = attempt(rt, with_rows(set))?;
        println!(rt; "rows of set {set}: {outcome}")?;
    }
    Ok(())
}

pub fn run(rt: &HostRuntime) -> anyhow::Result<()> {
    limits_of_plans(rt)?;
    limits_of_buffers(rt)?;
    sets_of_rows(rt)
}
