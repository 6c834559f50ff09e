// The total of one message: it is encoded, and each sent bit pays.
ghost use Rattle.std.specs.Bool.{then_some};
ghost use Rattle.std.specs.Int.{from_bool};
ghost use Rattle.std.specs.Prelude.{◌≡◌, ℕ, suc, ◌+◌, ◌<◌, ◌≤◌, pos, IfSome, slice_index_or};
ghost use Rattle.coding.specs.Encoding.{code_of};
ghost use Rattle.coding.specs.Meaning.{coding_of};
ghost use Rattle.coding.specs.Puncturing.{sends_first, sends_second, sent_before};
ghost use Rattle.paths.specs.Endings.{tail_inputs};
ghost use Rattle.paths.specs.Orders.{Bears, adds};
ghost use Rattle.tally.specs.Reckoning.{Reckoned};
ghost use Rattle.tally.specs.Walks.{Going, comes_to, paid_at, walked};
ghost use Rattle.trellis.specs.Penalties.{soft_at};

use coding::{Code, Coding, Ending, sent_code_bits, sent_in};
use orders::Order;
use trellis::penalty_at;

/// What messages are reckoned by: a coding, the soft numbers of the positions, and an order of totals.
#[derive(Clone, Copy)]
pub struct Reckoner<'a, C, E, O> {
    pub coding: &'a Coding<C, E>,
    pub soft: &'a [i32],
    pub order: &'a O,
}

/// How far a message is reckoned: the next step, the state, and the total so far.
// A walk of its own, here and in the listing, though the sender has one: the search is held against these totals. What a bit pays, and
// what a code and a pattern are, they share.
#[derive(Clone, Copy)]
struct Walk<T> {
    step: usize,
    state: u8,
    total: T,
}

impl<'a, C: Code, E: Ending<C>, O: Order> Reckoner<'a, C, E, O> {
    /// The soft number of a position, or 0 past the end, if a bit is sent there.
    // Here the flag of `sent_code_bits` becomes an Option.
    fn soft_number(&self, position: usize, sent: bool) -> Option<i32>
        ensures { result ≡ then_some sent (slice_index_or self.now.soft.now position (pos 0)) }
    {
        sent.then_some(self.soft.get(position).copied().unwrap_or(0))
    }

    /// The soft numbers of the two code bits of a step, each if it is sent.
    #[tactic(auto, using(coding::proofs::Patterns::sent_most, crate::proofs::Walks::byte_most))]
    fn soft_numbers(&self, step: usize) -> (Option<i32>, Option<i32>)
        requires { step < 4096 }
        ensures first { result.0 ≡ then_some (sends_first self.now.coding.now.rate step) (slice_index_or self.now.soft.now (sent_before self.now.coding.now.rate step) (pos 0)) }
        ensures second { result.1 ≡ then_some (sends_second self.now.coding.now.rate step) (slice_index_or self.now.soft.now (sent_before self.now.coding.now.rate step + from_bool (sends_first self.now.coding.now.rate step)) (pos 0)) }
    {
        let (first_sent, second_sent) = sent_code_bits(self.coding.rate, step);
        let position = sent_in(self.coding.rate, step as u32) as usize;
        let after = position + usize::from(first_sent);
        let first_soft = self.soft_number(position, first_sent);
        let second_soft = self.soft_number(after, second_sent);
        (first_soft, second_soft)
    }

    /// A total with the penalty of a code bit at its soft number, if it is sent.
    fn pay(&self, total: O::Total, soft: Option<i32>, bit: u8) -> O::Total
        requires { Bears (O.Order.order self.now.order.now).metric 1 total }
        ensures is { result ≡ adds (O.Order.order self.now.order.now).metric total (paid_at soft bit) }
        ensures bears { (n : ℕ) → Bears (O.Order.order self.now.order.now).metric (suc n) total → Bears (O.Order.order self.now.order.now).metric n result }
    {
        match soft {
            Some(number) => self.order.add(total, penalty_at(number, bit)),
            None => total,
        }
    }

    /// A total with the penalties of two code bits.
    fn pay_both(
        &self,
        total: O::Total,
        first_soft: Option<i32>,
        first: u8,
        second_soft: Option<i32>,
        second: u8,
    ) -> O::Total
        requires { Bears (O.Order.order self.now.order.now).metric 2 total }
        ensures { result ≡ adds (O.Order.order self.now.order.now).metric (adds (O.Order.order self.now.order.now).metric total (paid_at first_soft first)) (paid_at second_soft second) }
    {
        let once = self.pay(total, first_soft, first);
        self.pay(once, second_soft, second)
    }

    /// One step by an input: its sent bits pay.
    // Inlined, so that a walk stays in registers: handed from call to call through memory, a step takes half as long again.
    #[inline(always)]
    fn step(&self, walk: Walk<O::Total>, input: u8) -> Walk<O::Total>
        requires input { input < 2 }
        requires short { walk.step < 4096 }
        requires going { Going (coding_of C.Code.trellis E.Ending.tail self.now.coding.now) (O.Order.order self.now.order.now).metric walk }
        ensures { result ≡ walked (coding_of C.Code.trellis E.Ending.tail self.now.coding.now) (O.Order.order self.now.order.now).metric (soft_at self.now.soft.now) walk input }
    {
        let (state, first, second) = self.coding.code.branch(walk.state, input);
        let (first_soft, second_soft) = self.soft_numbers(walk.step);
        let total = self.pay_both(walk.total, first_soft, first, second_soft, second);
        Walk {
            step: walk.step + 1,
            state,
            total,
        }
    }

    /// The total after the closing steps.
    fn close(&self, from: Walk<O::Total>) -> O::Total
        requires short { from.step ≤ 4090 }
        requires going { Going (coding_of C.Code.trellis E.Ending.tail self.now.coding.now) (O.Order.order self.now.order.now).metric from }
        ensures is { result ≡ comes_to (coding_of C.Code.trellis E.Ending.tail self.now.coding.now) (O.Order.order self.now.order.now).metric (soft_at self.now.soft.now) from (tail_inputs (code_of (coding_of C.Code.trellis E.Ending.tail self.now.coding.now)) (coding_of C.Code.trellis E.Ending.tail self.now.coding.now).tail from.state) }
        ensures bears { Bears (O.Order.order self.now.order.now).metric 0 result }
    {
        let mut walk = from;
        for _ in 0..self.coding.end.closing_steps(&self.coding.code) {
            let input = self.coding.end.closing_input(&self.coding.code, walk.state);
            walk = self.step(walk, input);
        }
        walk.total
    }

    /// The total of a message of at most 4,090 bits; None for a longer one, and for a byte that is no bit. A soft number past the
    /// end is 0.
    pub fn reckon(&self, message: &[u8]) -> Option<O::Total>
        ensures is { Reckoned (coding_of C.Code.trellis E.Ending.tail self.now.coding.now) (O.Order.order self.now.order.now).metric (soft_at self.now.soft.now) message.now result }
        ensures bears { IfSome result (λ t. Bears (O.Order.order self.now.order.now).metric 0 t) }
    {
        if message.len() > 4090 {
            return None;
        }
        let mut walk = Walk {
            step: 0,
            state: 0,
            total: self.order.zero(),
        };
        for &input in message {
            if input > 1 {
                return None;
            }
            walk = self.step(walk, input);
        }
        Some(self.close(walk))
    }
}
