// The search for the nearest message: row by row forward, and back by the decisions.
ghost use Rattle.std.specs.Prelude.{◌≡◌, ℕ, ◌+◌, ◌<◌, ◌≤◌, reverse, length, if◌then◌else◌, Some};
ghost use Rattle.coding.specs.Encoding.{sent_for, steps_for};
ghost use Rattle.coding.specs.Meaning.{coding_of};
ghost use Rattle.coding.specs.Puncturing.{sent_before};
ghost use Rattle.paths.specs.Orders.{Bears};
ghost use Rattle.paths.specs.Rows.{Found, Passes, Row, Words, better, bit_of, bits_of, held};
ghost use Rattle.paths.specs.Survivors.{arrival, traced};
ghost use Rattle.trellis.specs.Nearest.{LeastTotal};
ghost use Rattle.trellis.specs.Penalties.{soft_at};
ghost use Rattle.trellis.specs.Steps.{RowEnd, Tabled, branch_by, costs_at};

use super::cost::Cost;
use super::step::advance;
use super::stores::Stores;
use super::table::{NO_FORKS, Table};
use super::totals::Totals;
use super::words::is_marked;
use coding::{Code, Coding, Ending, Rate};
use orders::Order;

/// Where a branch comes from, and the input that takes it.
#[derive(Clone, Copy)]
pub struct Entered {
    pub from: u8,
    pub input: u8,
}

/// The branch by which a state was entered, as the decision word of the step says.
// A state is a plain number here and in the table, asked to be below the code's count, as the trait `Code` has it.
fn entered_by<C: Code>(code: &C, word: u64, state: usize) -> Entered
    requires { state < (C.Code.trellis code.now).code.states }
    ensures { branch_by result ≡ arrival (C.Code.trellis code.now).code (bit_of word state) state }
{
    let (lower, lower_input, higher, higher_input) = code.entering(state as u8);
    if is_marked(word, state) {
        Entered {
            from: higher,
            input: higher_input,
        }
    } else {
        Entered {
            from: lower,
            input: lower_input,
        }
    }
}

/// The state after the first `to` steps, on the way back from a state after all steps.
fn descend<C: Code>(code: &C, decisions: &[u64], steps: usize, end: usize, to: usize) -> usize
    requires inside { end < (C.Code.trellis code.now).code.states }
    requires words { steps ≤ length decisions.now }
    requires short { to ≤ steps }
    ensures { Passes (C.Code.trellis code.now).code (bits_of decisions.now) steps end to result }
{
    let mut state = end;
    for word in decisions[to..steps].iter().rev() {
        state = usize::from(entered_by(code, *word, state).from);
    }
    state
}

/// Writes the inputs on the way back from a state.
//
// By index: of a zipped `iter_mut`, and of `iter_mut().enumerate().rev()`, an invariant cannot name the slice that is written, so that
// nothing of `out` was proved. Only a loop that goes up names it.
fn trace<C: Code>(code: &C, decisions: &[u64], end: usize, out: &mut [u8])
    requires inside { end < (C.Code.trellis code.now).code.states }
    requires words { length out.old ≤ length decisions.now }
    ensures { out.new ≡ reverse (traced (C.Code.trellis code.now).code (bits_of decisions.now) (length out.old) end) }
{
    let mut state = end;
    for step in (0..out.len()).rev() {
        let branch = entered_by(code, decisions[step], state);
        out[step] = branch.input;
        state = usize::from(branch.from);
    }
}

/// The better of the best so far and of one state more.
// That a total bears what is asked of it is a fact with more than one proof, which no field may have: see the head of `step`.
fn bettered<O: Order>(
    order: &O,
    best: Option<(usize, O::Total)>,
    state: usize,
    total: Option<O::Total>,
) -> Option<(usize, O::Total)>
    requires best { (p : ℕ × O.Total) → best ≡ Some p → Bears (O.Order.order order.now).metric 0 p.1 }
    requires total { (t : O.Total) → total ≡ Some t → Bears (O.Order.order order.now).metric 0 t }
    ensures { result ≡ better (O.Order.order order.now).metric best state total }
{
    match (best, total) {
        (_, None) => best,
        (None, Some(u)) => Some((state, u)),
        (Some((_, t)), Some(u)) => {
            if order.lower(u, t) {
                Some((state, u))
            } else {
                best
            }
        }
    }
}

/// The state of the least total, and of equal ones the first.
//
// By a loop: in a `fold`, what `bettered` asks was not proved, as the closure would have to be asked of each total again that it bears.
// It takes the number of states by itself, as it reads nothing else of the table.
fn least<O: Order>(
    order: &O,
    totals: &Totals<'_, O::Total>,
    states: usize,
) -> Option<(usize, O::Total)>
    requires few { states ≤ 64 }
    requires size { states ≤ length totals.now.row.now }
    requires bears { (s : ℕ) (t : O.Total) → s < states → held (O.Order.order order.now).metric totals.now.row.now totals.now.reached s ≡ Some t → Bears (O.Order.order order.now).metric 0 t }
    ensures { Found (O.Order.order order.now).metric (held (O.Order.order order.now).metric totals.now.row.now totals.now.reached) states result }
{
    let mut best = None;
    for state in 0..states {
        best = bettered(order, best, state, totals.total(state));
    }
    best
}

/// The state in which the best path ends, and its total: state 0 of a closed frame, and the least of an open one.
//
// A flag picks the end, since `RowEnd`, which says what the end is, is by the same two cases.
fn best_end<O: Order>(
    order: &O,
    totals: &Totals<'_, O::Total>,
    states: usize,
    closed: bool,
) -> Option<(usize, O::Total)>
    requires some { 0 < states }
    requires few { states ≤ 64 }
    requires size { states ≤ length totals.now.row.now }
    requires bears { (s : ℕ) (t : O.Total) → s < states → held (O.Order.order order.now).metric totals.now.row.now totals.now.reached s ≡ Some t → Bears (O.Order.order order.now).metric 0 t }
    ensures { RowEnd (O.Order.order order.now).metric closed totals.now.row.now totals.now.reached states result }
{
    if closed {
        Some((0, totals.row[0]))
    } else {
        least(order, totals, states)
    }
}

/// What every step of a search reads, but for the rate. The rate is an argument of the steps: where a caller fixes it, the compiler then
/// knows it in the steps, and a bit takes 1.0 of the time of plain C; where it does not know it, 1.2.
#[derive(Drop)]
struct Search<'a, 't, C: Code, O: Order> {
    code: C,
    order: &'a O,
    soft: &'a [i32],
    table: Table<'t>,
    ghost states: { table.states ≡ (C.Code.trellis code).code.states },
    ghost tabled: { Tabled (C.Code.trellis code).code (C.Code.trellis code).code.states table.forks.now },
}

impl<C: Code, O: Order> Search<'_, '_, C, O> {
    /// One step of the search: writes the row after it and its decision word, and answers the states reached.
    fn stride(
        &self,
        rate: Rate,
        step: usize,
        old: &Totals<'_, O::Total>,
        new: &mut [O::Total],
        decisions: &mut [u64],
    ) -> u64
        requires old_size { (C.Code.trellis self.now.code).code.states ≤ length old.now.row.now }
        requires new_size { (C.Code.trellis self.now.code).code.states ≤ length new.old }
        requires short { step < 4096 }
        requires word { step < length decisions.old }
        requires room { sent_before rate (step + 1) ≤ length self.now.soft.now }
        requires row { Row (C.Code.trellis self.now.code).code (O.Order.order self.now.order.now).metric (costs_at rate (soft_at self.now.soft.now)) step (held (O.Order.order self.now.order.now).metric old.now.row.now old.now.reached) }
        requires words { Words (C.Code.trellis self.now.code).code (O.Order.order self.now.order.now).metric (costs_at rate (soft_at self.now.soft.now)) step decisions.old }
        ensures row { Row (C.Code.trellis self.now.code).code (O.Order.order self.now.order.now).metric (costs_at rate (soft_at self.now.soft.now)) (step + 1) (held (O.Order.order self.now.order.now).metric new.new result) }
        ensures words { Words (C.Code.trellis self.now.code).code (O.Order.order self.now.order.now).metric (costs_at rate (soft_at self.now.soft.now)) (step + 1) decisions.new }
    {
        let cost = Cost::of_step(rate, self.soft, step);
        let (mask, word) = advance(self.order, &self.table, &cost, old, new);
        decisions[step] = word;
        mask
    }

    /// The start, and the first step where the number of steps is odd: so that the pairs of steps that are left end in `totals`.
    //
    // A flag picks the row that the start is written to: both rows are lent here once, and so the turns of `march` are all alike. Here and
    // in `march` the stores are lent one by one, as the two rows change places from step to step.
    fn start(
        &self,
        rate: Rate,
        odd: bool,
        decisions: &mut [u64],
        totals: &mut [O::Total],
        spare: &mut [O::Total],
    ) -> u64
        requires totals_size { (C.Code.trellis self.now.code).code.states ≤ length totals.old }
        requires spare_size { (C.Code.trellis self.now.code).code.states ≤ length spare.old }
        requires word { 0 < length decisions.old }
        requires room { sent_before rate 1 ≤ length self.now.soft.now }
        ensures row { Row (C.Code.trellis self.now.code).code (O.Order.order self.now.order.now).metric (costs_at rate (soft_at self.now.soft.now)) (if odd then 1 else 0) (held (O.Order.order self.now.order.now).metric totals.new result) }
        ensures words { Words (C.Code.trellis self.now.code).code (O.Order.order self.now.order.now).metric (costs_at rate (soft_at self.now.soft.now)) (if odd then 1 else 0) decisions.new }
    {
        if odd {
            spare[0] = self.order.zero();
            let first = Totals {
                reached: 1,
                row: spare,
            };
            self.stride(rate, 0, &first, totals, decisions)
        } else {
            totals[0] = self.order.zero();
            1
        }
    }

    /// All the steps, two a turn: the last row is in `totals`, with the states reached as the answer.
    fn march(
        &self,
        rate: Rate,
        steps: usize,
        decisions: &mut [u64],
        totals: &mut [O::Total],
        spare: &mut [O::Total],
    ) -> u64
        requires some { 0 < steps }
        requires short { steps ≤ 4096 }
        requires totals_size { (C.Code.trellis self.now.code).code.states ≤ length totals.old }
        requires spare_size { (C.Code.trellis self.now.code).code.states ≤ length spare.old }
        requires decisions_size { steps ≤ length decisions.old }
        requires room { sent_before rate steps ≤ length self.now.soft.now }
        ensures row { Row (C.Code.trellis self.now.code).code (O.Order.order self.now.order.now).metric (costs_at rate (soft_at self.now.soft.now)) steps (held (O.Order.order self.now.order.now).metric totals.new result) }
        ensures words { Words (C.Code.trellis self.now.code).code (O.Order.order self.now.order.now).metric (costs_at rate (soft_at self.now.soft.now)) steps decisions.new }
    {
        let odd = steps % 2;
        let mut reached = self.start(rate, odd == 1, decisions, totals, spare);
        for step in (odd..steps).step_by(2) {
            let before = Totals {
                reached,
                row: totals,
            };
            let halfway = self.stride(rate, step, &before, spare, decisions);
            let between = Totals {
                reached: halfway,
                row: spare,
            };
            reached = self.stride(rate, step + 1, &between, totals, decisions);
        }
        reached
    }
}

/// The nearest message of as many bits as the buffer has bytes, and its total.
pub(crate) fn find<C: Code, E: Ending<C>, O: Order>(
    coding: &Coding<C, E>,
    soft: &[i32],
    order: &O,
    stores: Stores<'_, O::Total>,
    message: &mut [u8],
) -> O::Total
    requires some { 0 < length message.old }
    requires short { length message.old ≤ 4090 }
    requires room { sent_for (coding_of C.Code.trellis E.Ending.tail coding.now) (length message.old) ≤ length soft.now }
    requires words { steps_for (coding_of C.Code.trellis E.Ending.tail coding.now) (length message.old) ≤ length stores.decisions.now }
    requires totals_size { (C.Code.trellis coding.now.code).code.states ≤ length stores.totals.now }
    requires spare_size { (C.Code.trellis coding.now.code).code.states ≤ length stores.spare.now }
    ensures { LeastTotal (coding_of C.Code.trellis E.Ending.tail coding.now) (length message.old) (O.Order.order order.now).metric (soft_at soft.now) message.new result }
{
    let Stores {
        decisions,
        totals,
        spare,
    } = stores;
    let code = &coding.code;
    let bits = message.len();
    let closing = usize::from(coding.end.closing_steps(code));
    let steps = bits + closing;
    let mut forks = NO_FORKS;
    let search = Search {
        code: *code,
        order,
        soft,
        table: Table::new(code, &mut forks),
    };
    let reached = search.march(coding.rate, steps, decisions, totals, spare);
    let last = Totals {
        reached,
        row: totals,
    };
    let (end, total) = best_end(order, &last, search.table.states, closing > 0).unwrap();
    let state = descend(code, decisions, steps, end, bits);
    trace(code, decisions, state, message);
    total
}
