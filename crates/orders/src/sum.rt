// The order by the sum of the penalties.
ghost use Rattle.orders.specs.Sum.{by_sum, sums};
ghost use Rattle.paths.specs.Orders.{IsSum};

use super::order::Order;

/// By the sum of the penalties.
#[derive(Clone, Copy)]
pub struct Sum;

impl Order for Sum {
    type Total = u64;

    ghost order = { λ _. by_sum };

    fn zero(&self) -> u64 {
        0
    }

    fn add(&self, total: u64, penalty: u32) -> u64 {
        total + u64::from(penalty)
    }

    fn lower(&self, a: u64, b: u64) -> bool {
        a < b
    }
}

/// `Sum`'s totals are sums: some reading of them as numbers takes zero to 0, adding to + and lower to <.
pub fn sum_is_a_sum()
    ensures { IsSum sums }
{}
