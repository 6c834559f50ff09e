// The stores that a search is lent, and which searches are refused.
ghost use Rattle.std.specs.Prelude.{◌≡◌, length};
ghost use Rattle.coding.specs.Meaning.{coding_of};
ghost use Rattle.trellis.specs.Nearest.{refused_by, search_refusal};

use coding::{Code, Coding, Ending, sent_in};
use refusals::Refusal;

/// What a search works in: a decision word for each step, and two rows of totals, with one for each state.
//
// Slices that a caller lends at each call: nothing is allocated here, and none of them is kept from one search to the next.
pub struct Stores<'a, T> {
    pub decisions: &'a mut [u64],
    pub totals: &'a mut [T],
    pub spare: &'a mut [T],
}

impl<T> Stores<'_, T> {
    /// Refuses what cannot be searched: the first check that is met.
    pub(crate) fn check<C: Code, E: Ending<C>>(
        &self,
        coding: &Coding<C, E>,
        bits: u16,
        soft: &[i32],
        message: &[u8],
    ) -> Result<(), Refusal>
        ensures { refused_by result ≡ search_refusal (coding_of C.Code.trellis E.Ending.tail coding.now) bits (length soft.now) (length self.now.decisions.now) (length self.now.totals.now) (length self.now.spare.now) (length message.now) }
    {
        let states = usize::from(coding.code.states());
        let steps = u32::from(bits) + u32::from(coding.end.closing_steps(&coding.code));
        if !(1..=4090).contains(&bits) {
            Err(Refusal::MessageLength)
        } else if (soft.len() as u64) < sent_in(coding.rate, steps) {
            Err(Refusal::SoftNumbers)
        } else if self.decisions.len() < steps as usize {
            Err(Refusal::DecisionStore)
        } else if self.totals.len() < states || self.spare.len() < states {
            Err(Refusal::TotalStore)
        } else if message.len() < usize::from(bits) {
            Err(Refusal::MessageBuffer)
        } else {
            Ok(())
        }
    }
}
