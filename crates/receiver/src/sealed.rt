// The calls on a sealed frame: unseal and decode.
ghost use Rattle.receiver.specs.Calls.{MessageDecoded};
ghost use Rattle.receiver.specs.Frames.{reception_of};
ghost use Rattle.std.specs.Prelude.{◌≡◌};

use super::frame::{FillingFrame, SealedFrame};
use coding::{Code, Coding, Ending};
use demapping::Demapper;
use interleaving::Interleaver;
use orders::Order;
use refusals::Refusal;
use sending::Link;
use trellis::{Stores, nearest_message};

impl<C: Code, E: Ending<C>, I: Interleaver, D: Demapper> SealedFrame<C, E, I, D> {
    /// The full filling frame again.
    pub(crate) fn unseal(self) -> FillingFrame<C, E, I, D>
        ensures { result ≡ record { setup = self.setup; taken = self.taken } }
    {
        let SealedFrame { setup, taken } = self;
        FillingFrame { setup, taken }
    }

    /// The nearest message, into the first bytes of its buffer, and its total by the order handed in.
    // Three slices and not one struct of them: of a struct that is handed on whole, the proof does not close that its slices
    // after the call are those that the search leaves.
    pub(crate) fn decode<O: Order>(
        &self,
        soft: &[i32],
        order: &O,
        decisions: &mut [u64],
        totals: &mut [O::Total],
        spare: &mut [O::Total],
        message: &mut [u8],
    ) -> Result<O::Total, Refusal>
        ensures { MessageDecoded (reception_of C.Code.trellis E.Ending.tail I.Interleaver.interleaving D.Demapper.demapping self.now.setup) (O.Order.order order.now).metric soft.now decisions.old decisions.new totals.old totals.new spare.old spare.new message.old message.new result }
    {
        self.setup.checked(soft)?;
        let Link { plan, code, .. } = self.setup.link;
        let coding = Coding {
            code,
            end: plan.end,
            rate: plan.rate,
        };
        let stores = Stores {
            decisions,
            totals,
            spare,
        };
        nearest_message(&coding, plan.message_bits, soft, order, stores, message)
    }
}
