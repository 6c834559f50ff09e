// Holds the search against a listing of every message, for both codes, both ends, all rates and both orders; and its refusals.
#![tactic(auto)]

mod stores;

use coding::{CodeKind, Coding, End, Rate};
use orders::{CountFirst, Sum};
use std::io;
use stores::stores_hold;
use tally::{Readable, Reckoner, spell};
use trellis::{Stores, nearest_message};

/// What soft numbers a trial has: zeros, equal and opposite numbers, small ones that often tie, large ones, or the extremes.
#[derive(Clone, Copy)]
enum Pattern {
    Zeros,
    Opposite,
    Small,
    Large,
    Extremes,
}

impl Pattern {
    const ALL: [Pattern; 5] = [
        Pattern::Zeros,
        Pattern::Opposite,
        Pattern::Small,
        Pattern::Large,
        Pattern::Extremes,
    ];
}

/// The soft numbers of a trial, whose draws start from its length and the number of its pattern: more than six bits ever send.
fn soft_numbers(bits: u8, pattern: Pattern) -> [i32; 32] {
    let mut soft = [0i32; 32];
    let mut x = (u64::from(bits) * 5 + pattern as u64) | 1;
    for (k, number) in soft.iter_mut().enumerate() {
        x = x
            .wrapping_mul(6_364_136_223_846_793_005)
            .wrapping_add(1_442_695_040_888_963_407);
        let draw = (x >> 33) as u32;
        *number = match pattern {
            Pattern::Zeros => 0,
            Pattern::Opposite => { if k % 2 == 0 { 7 } else { -7 } }
            Pattern::Small => (draw % 5) as i32 - 2,
            Pattern::Large => (draw % 40_000_001) as i32 - 20_000_000,
            Pattern::Extremes => { if draw % 2 == 0 { i32::MIN } else { i32::MAX } }
        };
    }
    soft
}

/// Whether the buffer has the number's bits in front, and is as it was behind them.
fn is_spelt(message: &[u8; 10], number: u32, bits: u8) -> bool {
    let front = usize::from(bits.min(10));
    let mut wanted = [9u8; 10];
    wanted[..front].copy_from_slice(&spell(number, bits)[..front]);
    *message == wanted
}

/// Whether the search finds what the listing does.
// The stores come from above: a slice of an array of `O::Total` owes that its size is below 2^63, which no bound says.
fn agrees<O: Readable>(
    coding: &Coding<CodeKind, End>,
    bits: u8,
    soft: &[i32],
    order: &O,
    totals: &mut [O::Total],
    spare: &mut [O::Total],
) -> bool {
    let mut message = [9u8; 10];
    let stores = Stores {
        decisions: &mut [0; 16],
        totals,
        spare,
    };
    let found = nearest_message(coding, u16::from(bits), soft, order, stores, &mut message);
    let reckoner = Reckoner {
        coding,
        soft,
        order,
    };
    match (found, reckoner.nearest_by_listing(bits)) {
        (Ok(total), Some((number, least))) => order.reading(total) == order.reading(least)
            && is_spelt(&message, number, bits),
        _ => false,
    }
}

/// How many of 30 trials agree: of each length from 1 to 6 bits, five patterns.
fn agreeing<O: Readable>(
    coding: &Coding<CodeKind, End>,
    order: &O,
    totals: &mut [O::Total],
    spare: &mut [O::Total],
) -> usize {
    // One range of trials, whose count is seen to fit. A loop over lengths with one over patterns in it wants an invariant each for
    // its count, and of `flat_map` the check does not find alone that the count fits.
    (0..30u8)
        .filter(|&trial| {
            let bits = trial / 5 + 1;
            let pattern = Pattern::ALL[usize::from(trial % 5)];
            let soft = soft_numbers(bits, pattern);
            agrees(coding, bits, &soft, order, totals, spare)
        })
        .count()
}

fn main(rt: HostRuntime) -> io::Result<()> {
    let kinds = [
        ("long code, closed", CodeKind::Long, End::Closed),
        ("long code, open", CodeKind::Long, End::Open),
        ("recursive code, closed", CodeKind::Recursive, End::Closed),
        ("recursive code, open", CodeKind::Recursive, End::Open),
    ];
    for (name, code, end) in kinds {
        println!(rt; "{name}")?;
        for rate in [Rate::Half, Rate::TwoThirds, Rate::ThreeQuarters] {
            let coding = Coding { code, end, rate };
            let sums = agreeing(&coding, &Sum, &mut [0; 64], &mut [0; 64]);
            let counts = agreeing(&coding, &CountFirst, &mut [(0, 0); 64], &mut [(0, 0); 64]);
            println!(rt; "  rate {rate}: sum, {sums} of 30 agree; count first, {counts} of 30")?;
        }
    }
    let count = stores_hold();
    println!(rt; "stores exactly long enough, and one short: {count} of 7 as they must be")
}
