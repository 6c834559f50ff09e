// The hard demapper: of the exact soft bits the signs alone.
ghost use Rattle.std.specs.Prelude.{◌≡◌};
ghost use Rattle.demapping.specs.Demappings.{hard_demapping};
ghost use Rattle.softbits.specs.SoftBits.{hard_of};

use crate::Demapper;
use crate::by_squares::Exact;
use qam::{Axis, Reading};

/// 64, 0 or −64 by the sign of x.
fn hard_of(x: i32) -> i32
    ensures { result ≡ hard_of x }
{
    64 * x.signum()
}

/// Answers the hard soft bits.
#[derive(Clone, Copy)]
pub struct Hard;

impl Demapper for Hard {
    ghost demapping = { λ _. hard_demapping };

    fn soft(&self, axis: Axis, reading: Reading) -> [i32; 4] {
        Exact.soft(axis, reading).map(hard_of)
    }
}
