// Stores that are exactly long enough, and one short.
use coding::{CodeKind, Coding, End, Rate};
use orders::Sum;
use trellis::{Stores, nearest_message};

/// The bits of a search, and the lengths of what it is given.
#[derive(Clone, Copy)]
struct Lengths {
    bits: u16,
    soft: usize,
    decisions: usize,
    totals: usize,
    spare: usize,
    message: usize,
}

/// What comes of a search. A refused call writes nothing.
// By number and not by variant: that the numbers are these is what is tried.
#[derive(Clone, Copy, PartialEq, Eq)]
enum Outcome {
    Granted,
    Refused { number: u8 },
    RefusedAndWrote,
}

/// What comes of a search with stores of these lengths.
fn search(lengths: Lengths) -> Outcome {
    let coding = Coding {
        code: CodeKind::Recursive,
        end: End::Closed,
        rate: Rate::Half,
    };
    let numbers = [5i32; 8];
    let mut decisions = [77u64; 4];
    let mut totals = [77u64; 4];
    let mut spare = [77u64; 4];
    let mut message = [77u8; 2];
    let stores = Stores {
        decisions: &mut decisions[..lengths.decisions.min(4)],
        totals: &mut totals[..lengths.totals.min(4)],
        spare: &mut spare[..lengths.spare.min(4)],
    };
    let found = nearest_message(
        &coding,
        lengths.bits,
        &numbers[..lengths.soft.min(8)],
        &Sum,
        stores,
        &mut message[..lengths.message.min(2)],
    );
    match found {
        Ok(_) => Outcome::Granted,
        Err(refusal) => {
            if decisions == [77; 4] && totals == [77; 4] && spare == [77; 4] && message == [77; 2] {
                Outcome::Refused {
                    number: refusal.number(),
                }
            } else {
                Outcome::RefusedAndWrote
            }
        }
    }
}

/// How many of seven searches come out as they must.
pub fn stores_hold() -> usize {
    let enough = Lengths {
        bits: 2,
        soft: 8,
        decisions: 4,
        totals: 4,
        spare: 4,
        message: 2,
    };
    let short = Lengths {
        bits: 2,
        soft: 7,
        decisions: 3,
        totals: 3,
        spare: 3,
        message: 1,
    };
    let trials = [
        (enough, Outcome::Granted),
        (
            Lengths { bits: 0, ..enough },
            Outcome::Refused { number: 2 },
        ),
        (short, Outcome::Refused { number: 5 }),
        (
            Lengths { soft: 8, ..short },
            Outcome::Refused { number: 10 },
        ),
        (
            Lengths {
                totals: 3,
                message: 1,
                ..enough
            },
            Outcome::Refused { number: 11 },
        ),
        (
            Lengths {
                spare: 3,
                message: 1,
                ..enough
            },
            Outcome::Refused { number: 11 },
        ),
        (
            Lengths {
                message: 1,
                ..enough
            },
            Outcome::Refused { number: 12 },
        ),
    ];
    trials
        .iter()
        .filter(|(lengths, wanted)| search(*lengths) == *wanted)
        .count()
}
