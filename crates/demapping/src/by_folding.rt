// The short demapper: each soft bit folds the one before it, with no level looked at.
ghost use Rattle.std.specs.Prelude.{◌≡◌, ◌≤◌};
ghost use Rattle.demapping.specs.Demappings.{short_demapping};
ghost use Rattle.demapping.specs.Steps.{short_after};

use crate::Demapper;
use qam::{Axis, Reading};

/// The short soft bit k from the one before it, zero past the last bit: each is in the range of a reading.
fn short_after(axis: Axis, k: u8, before: Reading) -> Reading
    requires { 2 ≤ k }
    ensures { result.steps ≡ short_after axis.bits k before.steps }
{
    if k > axis.bits {
        return Reading { steps: 0 };
    }
    let inner = Axis {
        bits: axis.bits - (k - 1),
    };
    Reading {
        steps: 64 * i16::from(inner.levels()) - before.steps.abs(),
    }
}

/// Answers the short soft bits.
#[derive(Clone, Copy)]
pub struct Short;

impl Demapper for Short {
    ghost demapping = { λ _. short_demapping };

    fn soft(&self, axis: Axis, reading: Reading) -> [i32; 4] {
        // Three lines and no chain: each soft bit needs the one before it, and of a closure that keeps it nothing is known.
        let second = short_after(axis, 2, reading);
        let third = short_after(axis, 3, second);
        let fourth = short_after(axis, 4, third);
        [reading, second, third, fourth].map(|bit| i32::from(bit.steps))
    }
}
