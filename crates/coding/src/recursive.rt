// The recursive code of four states: a state is 2x + y.
ghost use Rattle.coding.specs.Recursive.{recursive_closer, recursive_trellis};
ghost use Rattle.std.specs.Prelude.{◌≡◌};

use super::code::{Closable, Code};

/// The recursive systematic code of four states.
#[derive(Clone, Copy)]
pub struct Recursive;

impl Code for Recursive {
    ghost trellis = { λ _. recursive_trellis };

    fn states(&self) -> u8 {
        4
    }

    #[tactic(auto, using(crate::proofs::Bounds::fed_back_bit))]
    fn branch(&self, state: u8, input: u8) -> (u8, u8, u8) {
        let x = state / 2;
        let y = state % 2;
        let z = input ^ x ^ y;
        (2 * z + x, input, z ^ y)
    }

    fn entering(&self, state: u8) -> (u8, u8, u8, u8) {
        let z = state / 2;
        let x = state % 2;
        (2 * x, z ^ x, 2 * x + 1, z ^ x ^ 1)
    }
}

impl Closable for Recursive {
    ghost closer = { λ _. recursive_closer };

    #[tactic(auto, using(crate::specs::Recursive::recursive_closer_laws))]
    fn memory(&self) -> u8 {
        2
    }

    fn closing(&self, state: u8) -> u8 {
        (state / 2) ^ (state % 2)
    }
}
