// The nearest message of a few bits, by a listing of all.
ghost use Rattle.coding.specs.Encoding.{code_of};
ghost use Rattle.coding.specs.Meaning.{coding_of};
ghost use Rattle.paths.specs.Orders.{Bears};
ghost use Rattle.std.specs.Prelude.{◌≡◌, ℕ, ◌<◌, ◌≤◌, min, slice_index, IfSome};
ghost use Rattle.tally.specs.Spelling.{spelt_bit};

use super::reckoning::Reckoner;
use coding::{Code, Coding, Ending};
use orders::Order;
use std::array;

/// A bit, counted from 0, of the last bits of a number, the highest of so many first, and 0 behind them.
fn spelt(number: u32, bits: usize, place: usize) -> u8
    requires { bits ≤ 32 }
    ensures { result ≡ spelt_bit number bits place }
{
    if place < bits {
        (number >> (bits - 1 - place) & 1) as u8
    } else {
        0
    }
}

/// The last bits of a number, the highest of so many first: of more than 10, the last 10.
// An array of the longest message, with zeros behind: the library allocates nothing.
pub fn spell(number: u32, bits: u8) -> [u8; 10]
    ensures { (k : ℕ) → k < 10 → slice_index result k ≡ spelt_bit number (min bits 10) k }
{
    let bits = usize::from(bits.min(10));
    array::from_fn(move |place| spelt(number, bits, place))
}

/// The states of a message's path, closing steps included and zeros behind them; None for a path of more than 16 steps, and for a
/// byte that is no bit.
// An array of the longest trail: the library allocates nothing. It does not go by the steps of a reckoning, since a trail pays nothing.
fn trail_of<C: Code, E: Ending<C>>(coding: &Coding<C, E>, message: &[u8]) -> Option<[u8; 16]> {
    let steps = message
        .len()
        .checked_add(usize::from(coding.end.closing_steps(&coding.code)))?;
    let mut trail = [0u8; 16];
    let mut state = 0;
    for (step, place) in trail.get_mut(..steps)?.iter_mut().enumerate() {
        let input = match message.get(step) {
            Some(&bit) => bit,
            None => coding.end.closing_input(&coding.code, state),
        };
        if input > 1 {
            return None;
        }
        (state, _, _) = coding.code.branch(state, input);
        *place = state;
    }
    Some(trail)
}

/// A message by its number, with its total and its trail.
#[derive(Clone, Copy)]
struct Candidate<T> {
    number: u32,
    total: T,
    trail: [u8; 16],
}

impl<T> Candidate<T> {
    /// Whether its trail comes earlier than another's: at the last step where they differ its state is the smaller.
    fn is_earlier(&self, other: &Candidate<T>) -> bool {
        self.trail.iter().rev().lt(other.trail.iter().rev())
    }
}

impl<'a, C: Code, E: Ending<C>, O: Order> Reckoner<'a, C, E, O> {
    /// Whether a message is nearer than another: its total is lower, or it is neither lower nor higher and its trail comes earlier.
    fn is_nearer(&self, one: &Candidate<O::Total>, other: &Candidate<O::Total>) -> bool
        requires one { Bears (O.Order.order self.now.order.now).metric 0 one.now.total }
        requires other { Bears (O.Order.order self.now.order.now).metric 0 other.now.total }
    {
        self.order.lower(one.total, other.total)
            || !self.order.lower(other.total, one.total) && one.is_earlier(other)
    }

    /// A message of so many bits, reckoned.
    fn candidate(&self, number: u32, bits: u8) -> Option<Candidate<O::Total>>
        ensures { IfSome result (λ one. Bears (O.Order.order self.now.order.now).metric 0 one.total) }
    {
        let spelt = spell(number, bits);
        let message = spelt.get(..usize::from(bits))?;
        let total = self.reckon(message)?;
        let trail = trail_of(self.coding, message)?;
        Some(Candidate {
            number,
            total,
            trail,
        })
    }

    /// The number of the nearest message of so many bits, at most 10, whose highest bit is the first, and its total.
    pub fn nearest_by_listing(&self, bits: u8) -> Option<(u32, O::Total)>
        ensures { IfSome result (λ p. Bears (O.Order.order self.now.order.now).metric 0 p.1) }
    {
        if bits > 10 {
            return None;
        }
        let mut nearest: Option<Candidate<O::Total>> = None;
        for number in 0..1u32 << bits {
            let one = self.candidate(number, bits)?;
            if nearest.is_none_or(|least| self.is_nearer(&one, &least)) {
                nearest = Some(one);
            }
        }
        nearest.map(|least| (least.number, least.total))
    }
}
