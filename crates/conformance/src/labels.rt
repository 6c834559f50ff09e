// The label tables: for each number of bits per axis the label of every level, lowest level first.
use qam::{Axis, label_bit, number_labelled};

/// Adds the label bits of a level number, the highest first.
pub fn add_label(bits: &mut Vec<u8>, m: u8, number: u8) -> anyhow::Result<()> {
    for k in 1..=m {
        bits.push(label_bit(m, k, number))?;
    }
    Ok(())
}

/// The label of a level number, in binary digits.
fn digits(rt: &HostRuntime, axis: Axis, number: u8) -> anyhow::Result<String> {
    let mut bits = Vec::new(rt.alloc());
    add_label(&mut bits, axis.bits, number)?;
    let mut text = String::new(rt.alloc());
    for bit in bits.as_slice() {
        text.push(char::from(b'0'.wrapping_add(*bit)))?;
    }
    Ok(text)
}

fn table(rt: &HostRuntime, axis: Axis) -> anyhow::Result<()> {
    let mut line = String::new(rt.alloc());
    for number in 0..axis.levels() {
        line.push(' ')?;
        line.push_str(digits(rt, axis, number)?.as_str())?;
    }
    println!(rt; "labels {}:{line}", axis.bits)?;
    Ok(())
}

/// How many labels below 32 an axis of m bits has.
fn labels_of(m: u8) -> usize {
    (0..32)
        .filter(|label| number_labelled(m, *label).is_some())
        .count()
}

pub fn run(rt: &HostRuntime) -> anyhow::Result<()> {
    for bits in 1..=4 {
        table(rt, Axis { bits })?;
    }
    for m in 0..6 {
        let count = labels_of(m);
        println!(rt; "labels of {m} bits: {count}")?;
    }
    Ok(())
}
