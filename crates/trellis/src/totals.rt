// A row of totals, one for each state that is reached.
ghost use Rattle.std.specs.Prelude.{◌≡◌, ◌<◌, length, if◌then◌else◌, Some, None, slice_index_or};
ghost use Rattle.paths.specs.Rows.{bit_of};

use super::words::is_marked;

/// The totals of the states that are marked in a word; what the row has for another state, no one reads.
//
// The states reached stand beside the row, and not in it as an `Option` for each: the row is a store of plain totals that a caller lends,
// and an order has no largest total that could stand for none.
#[derive(Clone, Copy)]
pub(crate) struct Totals<'a, T> {
    pub(crate) reached: u64,
    pub(crate) row: &'a [T],
}

impl<T: Copy> Totals<'_, T> {
    /// The total of a state, if the state is reached.
    pub(crate) fn total(&self, state: usize) -> Option<T>
        requires few { state < 64 }
        requires inside { state < length self.now.row.now }
        ensures { (other : T) → result ≡ (if bit_of self.now.reached state then Some (slice_index_or self.now.row.now state other) else None) }
    {
        if is_marked(self.reached, state) {
            Some(self.row[state])
        } else {
            None
        }
    }
}
