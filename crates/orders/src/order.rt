// What an order of totals is: fixed maps, so a call alters nothing and refuses nothing.
ghost use Rattle.std.specs.Prelude.{◌≡◌, ◌≤◌};
ghost use Rattle.paths.specs.Orders.{Bears, Ordered, heaviest};

/// An order of totals. It owes its laws of totals that at most 8,192 penalties of at most 16,759,809 each have made.
pub trait Order: Copy {
    type Total: Copy;

    // The order's meaning, with its laws.
    ghost order: { Self → Ordered Self.Total };

    /// The total before any penalty.
    fn zero(&self) -> Self::Total
        ensures { result ≡ (order self.now).metric.start };

    /// A total with one penalty more.
    fn add(&self, total: Self::Total, penalty: u32) -> Self::Total
        requires light { penalty ≤ heaviest }
        requires bears { Bears (order self.now).metric 1 total }
        ensures { result ≡ (order self.now).metric.add total penalty };

    /// Whether the first of two totals is lower.
    fn lower(&self, a: Self::Total, b: Self::Total) -> bool
        requires left { Bears (order self.now).metric 0 a }
        requires right { Bears (order self.now).metric 0 b }
        ensures { result ≡ (order self.now).metric.lt a b };
}
