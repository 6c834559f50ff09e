// The code of 64 states of IEEE 802.11a.
ghost use Rattle.coding.specs.Long.{long_closer, long_trellis, parity};
ghost use Rattle.std.specs.Prelude.{◌≡◌};

use super::code::{Closable, Code};

/// The convolutional code of IEEE 802.11a, constraint length 7, octal generators 133 and 171.
#[derive(Clone, Copy)]
pub struct Long;

/// The parity of the register under a mask.
fn parity_under(mask: u8, register: u8) -> u8
    ensures { result ≡ parity mask register }
{
    ((register & mask).count_ones() % 2) as u8
}

impl Code for Long {
    ghost trellis = { λ _. long_trellis };

    fn states(&self) -> u8 {
        64
    }

    fn branch(&self, state: u8, input: u8) -> (u8, u8, u8) {
        let register = 64 * input + state;
        (
            register / 2,
            parity_under(0o133, register),
            parity_under(0o171, register),
        )
    }

    fn entering(&self, state: u8) -> (u8, u8, u8, u8) {
        let lower = 2 * state % 64;
        (lower, state / 32, lower + 1, state / 32)
    }
}

impl Closable for Long {
    ghost closer = { λ _. long_closer };

    #[tactic(auto, using(crate::specs::Long::long_closer_laws))]
    fn memory(&self) -> u8 {
        6
    }

    fn closing(&self, _state: u8) -> u8 {
        0
    }
}
