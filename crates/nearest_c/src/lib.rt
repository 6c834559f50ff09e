// The search for C to call: the long code, closed, at rate 1/2, by the sum of penalties.
#![tactic(auto)]

ghost use Rattle.nearest_c.specs.Lent.{answered, long_coding};
ghost use Rattle.orders.specs.Sum.{sums};
ghost use Rattle.trellis.specs.Nearest.{FoundNearest, Untouched, search_refusal};
ghost use Rattle.trellis.specs.Penalties.{soft_at};
ghost use Rattle.std.specs.Prelude.{◌≡◌, length, ◌≢◌};

use coding::{Coding, End, Long, Rate};
use orders::Sum;
use trellis::{Stores, nearest_message};

/// The long code, closed, at rate 1/2. A static, not a local: so the compiler knows the rate inside the search (1.0 of plain C, else 1.2).
static CODING: Coding<Long, End> = Coding {
    code: Long,
    end: End::Closed,
    rate: Rate::Half,
};

/// Writes the nearest message and its total, and answers 0; or answers the number of the refusal.
// That number, and seven parameters, are C's interface: C has no `Result`, and lends each store by itself.
#[unsafe(no_mangle)]
pub extern "C" fn nearest_long_sum(
    bits: u16,
    soft: &[i32],
    decisions: &mut [u64],
    totals: &mut [u64],
    spare: &mut [u64],
    message: &mut [u8],
    total: &mut u64,
) -> u8
    ensures refusal { result ≡ answered (search_refusal long_coding bits (length soft.now) (length decisions.old) (length totals.old) (length spare.old) (length message.old)) }
    ensures nearest { result ≡ 0 → FoundNearest long_coding bits sums (soft_at soft.now) message.old message.new total.new }
    ensures refused { (result ≢ 0) → Untouched decisions.old decisions.new totals.old totals.new spare.old spare.new message.old message.new }
{
    let stores = Stores {
        decisions,
        totals,
        spare,
    };
    match nearest_message(&CODING, bits, soft, &Sum, stores, message) {
        Ok(sum) => {
            *total = sum;
            0
        }
        Err(refusal) => refusal.number(),
    }
}
