// One step of the search: from the row of totals before it to the row after, and a decision for each state.
//
// `advance`, `advance_some` and `advance_all` ask the same of the totals before it. No ghost field can keep it, since `Bears` has a
// number in it, and a fact with more than one proof is refused there; a struct of their arguments would have to be asked it again.
// They ask of `old` and of `new` that they have a total for each state of the table. That is between two arguments, and no field of one
// can say it; rows with a number of states of their own would be asked that it is the table's. That the code bits of a branch are below 4
// is no ghost field of `Way`: `way_by` and `fork_at` make one by any code, and only of a lawful code is it true.
ghost use Rattle.std.specs.Prelude.{◌≡◌, ℕ, ◌-◌, ◌^◌, ◌<◌, ◌≤◌, length, is_some, if◌then◌else◌, Some, slice_index_or};
ghost use Rattle.paths.specs.Orders.{Bears, adds};
ghost use Rattle.paths.specs.Rows.{Holding, Marks, held, kept};
ghost use Rattle.paths.specs.Survivors.{takes_second};
ghost use Rattle.trellis.specs.Steps.{carried, cost_width, fork_higher, fork_total, no_fork, pair_pays, pays};

use super::cost::{BitCost, Cost};
use super::table::{Table, Way};
use super::totals::Totals;
use super::words::{all_marked, marked, shifted_in};
use orders::Order;

/// A total with the penalty of a code bit, if it is sent.
fn paid<O: Order>(order: &O, total: O::Total, bit: &Option<BitCost>, bits: u8) -> O::Total
    requires two_bits { bits < 4 }
    requires bears { Bears (O.Order.order order.now).metric (if is_some bit.now then 1 else 0) total }
    ensures { result ≡ adds (O.Order.order order.now).metric total (pays bit.now bits) }
{
    match bit {
        Some(cost) => order.add(total, cost.by_pair[usize::from(bits)]),
        None => total,
    }
}

/// A total with the penalties of a step.
fn paid_both<O: Order>(order: &O, total: O::Total, cost: &Cost, bits: u8) -> O::Total
    requires two_bits { bits < 4 }
    requires bears { Bears (O.Order.order order.now).metric (cost_width cost.now) total }
    ensures { result ≡ adds (O.Order.order order.now).metric total (pair_pays cost.now bits) }
{
    let first = paid(order, total, &cost.first, bits);
    paid(order, first, &cost.second, bits)
}

/// The total that a branch brings, if the state that it leaves has one.
fn brought<O: Order>(
    order: &O,
    cost: &Cost,
    way: Way,
    old: &Totals<'_, O::Total>,
) -> Option<O::Total>
    requires state { way.from < 64 }
    requires inside { way.from < length old.now.row.now }
    requires two_bits { way.bits < 4 }
    requires bears { (t : O.Total) → held (O.Order.order order.now).metric old.now.row.now old.now.reached way.from ≡ Some t → Bears (O.Order.order order.now).metric (cost_width cost.now) t }
    ensures { result ≡ carried (O.Order.order order.now).metric cost.now way (held (O.Order.order order.now).metric old.now.row.now old.now.reached way.from) }
{
    let total = old.total(usize::from(way.from))?;
    Some(paid_both(order, total, cost, way.bits))
}

/// Whether a state takes the total of its higher predecessor: only where it is lower, so that the lower predecessor has the ties.
fn is_higher_taken<O: Order>(order: &O, lower: O::Total, higher: O::Total) -> bool
    requires lower { Bears (O.Order.order order.now).metric 0 lower }
    requires higher { Bears (O.Order.order order.now).metric 0 higher }
    ensures { result ≡ (O.Order.order order.now).metric.lt higher lower }
{
    order.lower(higher, lower)
}

/// Whether a state takes the second of two totals: only where it is lower, or alone.
fn second_is_taken<O: Order>(order: &O, first: Option<O::Total>, second: Option<O::Total>) -> bool
    requires first { (t : O.Total) → first ≡ Some t → Bears (O.Order.order order.now).metric 0 t }
    requires second { (t : O.Total) → second ≡ Some t → Bears (O.Order.order order.now).metric 0 t }
    ensures { result ≡ takes_second (O.Order.order order.now).metric first second }
{
    match (first, second) {
        (Some(t), Some(u)) => is_higher_taken(order, t, u),
        (_, None) => false,
        (None, Some(_)) => true,
    }
}

/// Writes the total of a state, if it has one.
fn keep<T: Copy>(row: &mut [T], state: usize, total: Option<T>)
    requires { state < length row.old }
    ensures { row.new ≡ kept row.old state total }
{
    if let Some(t) = total {
        row[state] = t;
    }
}

/// One step where some states may be unreached: writes the row after it, and answers the states reached and the decisions.
//
// By the states' numbers: they name the fork, the place in the row and the bit of each word.
fn advance_some<O: Order>(
    order: &O,
    table: &Table<'_>,
    cost: &Cost,
    old: &Totals<'_, O::Total>,
    new: &mut [O::Total],
) -> (u64, u64)
    requires old_size { table.now.states ≤ length old.now.row.now }
    requires new_size { table.now.states ≤ length new.old }
    requires bears { (s : ℕ) (t : O.Total) → s < table.now.states → held (O.Order.order order.now).metric old.now.row.now old.now.reached s ≡ Some t → Bears (O.Order.order order.now).metric (cost_width cost.now) t }
    ensures row { Holding (O.Order.order order.now).metric (λ s. fork_total (O.Order.order order.now).metric cost.now (held (O.Order.order order.now).metric old.now.row.now old.now.reached) (slice_index_or table.now.forks.now s no_fork)) table.now.states new.new result.0 }
    ensures word { Marks (λ s. fork_higher (O.Order.order order.now).metric cost.now (held (O.Order.order order.now).metric old.now.row.now old.now.reached) (slice_index_or table.now.forks.now s no_fork)) table.now.states result.1 }
{
    let mut mask = 0;
    let mut word = 0;
    for state in 0..table.states {
        let fork = table.forks[state];
        let lower = brought(order, cost, fork.lower, old);
        let higher = brought(order, cost, fork.higher, old);
        let second = second_is_taken(order, lower, higher);
        let total = if second { higher } else { lower };
        keep(new, state, total);
        mask = marked(mask, state, total.is_some());
        word = marked(word, state, second);
    }
    (mask, word)
}

/// One step where every state is reached: writes the row after it, and answers the decisions. Nothing is asked of a state here but
/// its two branches, so that the compiler has a short loop: with `advance_some` alone a message bit took 305 ns, with both 110. By the
/// states' numbers too, from the last one down.
fn advance_all<O: Order>(
    order: &O,
    table: &Table<'_>,
    cost: &Cost,
    old: &Totals<'_, O::Total>,
    new: &mut [O::Total],
) -> u64
    requires all { old.now.reached ≡ 2 ^ table.now.states - 1 }
    requires old_size { table.now.states ≤ length old.now.row.now }
    requires new_size { table.now.states ≤ length new.old }
    requires bears { (s : ℕ) (t : O.Total) → s < table.now.states → held (O.Order.order order.now).metric old.now.row.now old.now.reached s ≡ Some t → Bears (O.Order.order order.now).metric (cost_width cost.now) t }
    ensures row { Holding (O.Order.order order.now).metric (λ s. fork_total (O.Order.order order.now).metric cost.now (held (O.Order.order order.now).metric old.now.row.now old.now.reached) (slice_index_or table.now.forks.now s no_fork)) table.now.states new.new old.now.reached }
    ensures word { Marks (λ s. fork_higher (O.Order.order order.now).metric cost.now (held (O.Order.order order.now).metric old.now.row.now old.now.reached) (slice_index_or table.now.forks.now s no_fork)) table.now.states result }
{
    // Named before the loop: so a bit takes 0.98 of the time of plain C; read through the table in every turn, 1.07.
    let forks = table.forks;
    let mut word = 0;
    for state in (0..table.states).rev() {
        let fork = forks[state];
        let lower = paid_both(
            order,
            old.row[usize::from(fork.lower.from)],
            cost,
            fork.lower.bits,
        );
        let higher = paid_both(
            order,
            old.row[usize::from(fork.higher.from)],
            cost,
            fork.higher.bits,
        );
        let second = is_higher_taken(order, lower, higher);
        new[state] = if second { higher } else { lower };
        word = shifted_in(word, second);
    }
    word
}

/// One step: writes the row after it, and answers the states reached and the decisions.
pub(crate) fn advance<O: Order>(
    order: &O,
    table: &Table<'_>,
    cost: &Cost,
    old: &Totals<'_, O::Total>,
    new: &mut [O::Total],
) -> (u64, u64)
    requires old_size { table.now.states ≤ length old.now.row.now }
    requires new_size { table.now.states ≤ length new.old }
    requires bears { (s : ℕ) (t : O.Total) → s < table.now.states → held (O.Order.order order.now).metric old.now.row.now old.now.reached s ≡ Some t → Bears (O.Order.order order.now).metric (cost_width cost.now) t }
    ensures row { Holding (O.Order.order order.now).metric (λ s. fork_total (O.Order.order order.now).metric cost.now (held (O.Order.order order.now).metric old.now.row.now old.now.reached) (slice_index_or table.now.forks.now s no_fork)) table.now.states new.new result.0 }
    ensures word { Marks (λ s. fork_higher (O.Order.order order.now).metric cost.now (held (O.Order.order order.now).metric old.now.row.now old.now.reached) (slice_index_or table.now.forks.now s no_fork)) table.now.states result.1 }
{
    if old.reached == all_marked(table.states) {
        (old.reached, advance_all(order, table, cost, old, new))
    } else {
        advance_some(order, table, cost, old, new)
    }
}
