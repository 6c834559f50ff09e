// The order by the count of penalties above 0, and then by their sum.
ghost use Rattle.orders.specs.CountFirst.{by_count};

use super::order::Order;

/// By how many penalties are above 0, and of equal counts by their sum.
#[derive(Clone, Copy)]
pub struct CountFirst;

impl Order for CountFirst {
    type Total = (u32, u64);

    ghost order = { λ _. by_count };

    fn zero(&self) -> (u32, u64) {
        (0, 0)
    }

    fn add(&self, total: (u32, u64), penalty: u32) -> (u32, u64) {
        (
            total.0 + u32::from(penalty > 0),
            total.1 + u64::from(penalty),
        )
    }

    fn lower(&self, a: (u32, u64), b: (u32, u64)) -> bool {
        a < b
    }
}
