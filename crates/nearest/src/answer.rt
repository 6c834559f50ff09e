// What is printed: the nearest message with its total, and the listing.
use super::options::Options;
use anyhow::{Context, anyhow, bail};
use std::io;
use tally::{Readable, Reckoner, spell};
use trellis::{Stores, nearest_message};

/// Prints bits without space between them.
fn print_bits(rt: &HostRuntime, bits: &[u8]) -> io::Result<()> {
    for bit in bits {
        print!(rt; "{bit}")?;
    }
    Ok(())
}

/// Prints every message with its total, reckoned by itself, and marks the one found.
fn list<O: Readable>(
    rt: &HostRuntime,
    options: &Options,
    order: &O,
    found: &[u8],
) -> anyhow::Result<()> {
    let bits = match u8::try_from(options.bits) {
        Ok(bits) if bits <= 10 => bits,
        _ => bail!("a listing is of at most 10 bits"),
    };
    let reckoner = Reckoner {
        coding: &options.coding,
        soft: &options.soft,
        order,
    };
    for number in 0..1u32 << bits {
        let message = spell(number, bits);
        let front = &message[..usize::from(bits)];
        let total = reckoner.reckon(front).context("no total")?;
        let reading = order.reading(total);
        let mark = if front == found { " *" } else { "" };
        print_bits(rt, front)?;
        println!(rt; " {reading}{mark}")?;
    }
    Ok(())
}

/// Searches, and prints what is asked for.
// The two rows of totals are lent: the caller has them on its stack, where a want of memory can't refuse them.
pub fn answer<O: Readable>(
    rt: &HostRuntime,
    options: &Options,
    order: &O,
    totals: &mut [O::Total],
    spare: &mut [O::Total],
) -> anyhow::Result<()> {
    let heap = rt.alloc();
    let mut decisions = vec![in heap; 0u64; 4096]?;
    let mut message = vec![in heap; 0u8; usize::from(options.bits)]?;
    let stores = Stores {
        decisions: &mut decisions,
        totals,
        spare,
    };
    let total = nearest_message(
        &options.coding,
        options.bits,
        &options.soft,
        order,
        stores,
        &mut message,
    )
    .map_err(|refusal| anyhow!("refusal {}: {refusal}", refusal.number()))?;
    let reading = order.reading(total);
    print_bits(rt, &message)?;
    println!(rt; " {reading}")?;
    if options.list {
        list(rt, options, order, &message)?;
    }
    Ok(())
}
