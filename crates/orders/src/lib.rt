// Orders of totals: how penalties add up to a total, and which of two totals is lower.
#![tactic(auto)]

mod count_first;
mod order;
mod sum;

pub use count_first::CountFirst;
pub use order::Order;
pub use sum::{Sum, sum_is_a_sum};

#[cfg(test)]
mod tests {
    // A total by the worst penalty and then the sum: it looks like an order, and is not a lawful one.
    #[derive(Clone, Copy, PartialEq, PartialOrd)]
    struct Worst {
        worst: u32,
        sum: u32,
    }

    fn with_two(t: Worst) -> Worst {
        Worst {
            worst: t.worst.max(2),
            sum: t.sum.saturating_add(2),
        }
    }

    // Worst 1 and sum 5 is lower than worst 2 and sum 2; both take 2, and then it is the higher.
    #[test]
    fn worst_then_sum_is_not_lawful(rt: HostRuntime) {
        let a = Worst { worst: 1, sum: 5 };
        let b = Worst { worst: 2, sum: 2 };
        assert!(rt; a < b);
        assert!(rt; with_two(b) < with_two(a));
        assert!(rt; !(with_two(a) < with_two(b)));
    }
}
