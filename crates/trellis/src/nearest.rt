// The nearest message, or a refusal.
ghost use Rattle.std.specs.Prelude.{◌≡◌, length, MatchResult};
ghost use Rattle.coding.specs.Meaning.{coding_of};
ghost use Rattle.trellis.specs.Nearest.{FoundNearest, Untouched, refused_by, search_refusal};
ghost use Rattle.trellis.specs.Penalties.{soft_at};

use super::search::find;
use super::stores::Stores;
use coding::{Code, Coding, Ending};
use orders::Order;
use refusals::Refusal;

/// Writes the nearest message of so many bits, and answers its total.
///
/// Of all messages of so many bits, it has the least total by the order; of those with the same total, it has the earliest trail
/// of states. Refused are, the first that is met: a length outside 1 to 4,090 (2), fewer soft numbers than bits sent (5), fewer
/// decision words than steps (10), fewer totals in either store than the code has states (11), fewer message bytes than bits (12).
/// A refused call writes nothing; a granted one leaves the later bytes of the message buffer as they are.
//
// In the clause `nearest`, the stores at the end are in the order of the fields of `Stores`: `stores.exit.0` is `decisions`,
// `stores.exit.1.0` is `totals`, and `stores.exit.1.1.0` is `spare`. The coding, the soft numbers and the order are three different
// things that a caller chooses one by one, so that no struct holds them, here and in `find`.
pub fn nearest_message<C: Code, E: Ending<C>, O: Order>(
    coding: &Coding<C, E>,
    bits: u16,
    soft: &[i32],
    order: &O,
    stores: Stores<'_, O::Total>,
    message: &mut [u8],
) -> Result<O::Total, Refusal>
    ensures refusal { refused_by result ≡ search_refusal (coding_of C.Code.trellis E.Ending.tail coding.now) bits (length soft.now) (length stores.entry.decisions.now) (length stores.entry.totals.now) (length stores.entry.spare.now) (length message.old) }
    ensures nearest { MatchResult result (λ t. FoundNearest (coding_of C.Code.trellis E.Ending.tail coding.now) bits (O.Order.order order.now).metric (soft_at soft.now) message.old message.new t) (λ _. Untouched stores.entry.decisions.now stores.exit.0.now stores.entry.totals.now stores.exit.1.0.now stores.entry.spare.now stores.exit.1.1.0.now message.old message.new) }
{
    let checked = stores.check(coding, bits, soft, message);
    // Taken apart before the refusal leaves: `Stores` as a whole is not `Drop`, and with `#[derive(Drop)]` nothing was proved of what a
    // store has that is let go whole, so that `Untouched` did not close. The search is lent them together again.
    let Stores {
        decisions,
        totals,
        spare,
    } = stores;
    checked?;
    let stores = Stores {
        decisions,
        totals,
        spare,
    };
    Ok(find(
        coding,
        soft,
        order,
        stores,
        &mut message[..usize::from(bits)],
    ))
}
