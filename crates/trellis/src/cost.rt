// What the two code bits of a step cost, as tables over the four pairs of bits.
ghost use Rattle.std.specs.Prelude.{◌≡◌, ℕ, ◌+◌, ◌<◌, ◌≤◌, true, is_some, length, slice_index};
ghost use Rattle.coding.specs.Encoding.{if_sent};
ghost use Rattle.coding.specs.Puncturing.{sent_before};
ghost use Rattle.trellis.specs.Penalties.{Light, limited, pays_at, soft_at};

use super::penalty::penalty_at;
use coding::{Rate, sent_code_bits, sent_in};

/// What a sent code bit costs, where the step's code bits are the pair 2c + d.
#[derive(Clone, Copy)]
pub struct BitCost {
    pub by_pair: [u32; 4],
    ghost light: { Light by_pair },
}

/// What the two code bits of a step cost, each if it is sent.
#[derive(Clone, Copy)]
pub struct Cost {
    pub first: Option<BitCost>,
    pub second: Option<BitCost>,
}

impl BitCost {
    ghost use Rattle.trellis.specs.Steps.{pays};

    /// The penalties of the code bit that is the bit `place` of the pair.
    fn new(soft: i32, place: u8) -> BitCost
        requires { place < 2 }
        ensures { result.by_pair ≡ pays_at place (limited soft) }
    {
        let zero = penalty_at(soft, 0);
        let one = penalty_at(soft, 1);
        let by_pair = match place {
            0 => [zero, one, zero, one],
            _ => [zero, zero, one, one],
        };
        BitCost { by_pair }
    }

    /// The same at a position, if the code bit is sent.
    //
    // That comes as a flag, as `sent_code_bits` answers one for each of the two code bits, and the next position is by it too.
    fn at(soft: &[i32], position: usize, sent: bool, place: u8) -> Option<BitCost>
        requires inside { sent ≡ true → position < length soft.now }
        requires place { place < 2 }
        ensures sent { is_some result ≡ sent }
        ensures pays { (e : ℕ) → pays result e ≡ if_sent sent (slice_index (pays_at place (soft_at soft.now position)) e) }
    {
        sent.then(|| BitCost::new(soft[position], place))
    }
}

impl Cost {
    ghost use Rattle.trellis.specs.Steps.{cost_width, costs_at, pair_pays, paired, width_at};

    /// What the code bits of a step cost. A bit that is not sent takes no position.
    pub(crate) fn of_step(rate: Rate, soft: &[i32], step: usize) -> Cost
        requires room { sent_before rate (step + 1) ≤ length soft.now }
        requires short { step < 4096 }
        ensures pays { (c d : ℕ) → c < 2 → d < 2 → pair_pays result (paired c d) ≡ costs_at rate (soft_at soft.now) step c d }
        ensures width { cost_width result ≡ width_at rate step }
    {
        let (first_sent, second_sent) = sent_code_bits(rate, step);
        let position = sent_in(rate, step as u32) as usize;
        let next = position + usize::from(first_sent);
        Cost {
            first: BitCost::at(soft, position, first_sent, 1),
            second: BitCost::at(soft, next, second_sent, 0),
        }
    }
}
