// Totals as they are shown and compared, whatever their order.
use orders::{CountFirst, Order, Sum};
use std::fmt;

/// A total of one of the orders.
#[derive(Clone, Copy, PartialEq, Eq)]
pub enum Reading {
    /// The sum of the penalties.
    Sum(u64),
    /// How many penalties are above 0, and their sum.
    CountFirst(u32, u64),
}

impl fmt::Display for Reading {
    fn fmt<W: fmt::Write>(&self, f: &mut fmt::Formatter<W>) -> fmt::Result {
        match self {
            Reading::Sum(sum) => write!(f, "{sum}"),
            Reading::CountFirst(count, sum) => write!(f, "{count} above 0, sum {sum}"),
        }
    }
}

/// An order whose totals can be shown.
pub trait Readable: Order {
    fn reading(&self, total: Self::Total) -> Reading;
}

impl Readable for Sum {
    fn reading(&self, total: u64) -> Reading {
        Reading::Sum(total)
    }
}

impl Readable for CountFirst {
    fn reading(&self, total: (u32, u64)) -> Reading {
        Reading::CountFirst(total.0, total.1)
    }
}
