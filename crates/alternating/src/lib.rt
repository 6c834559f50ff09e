// A code that is a `Code` and not `Closable`: an example of a code without an end to name.
#![tactic(auto)]

ghost use Rattle.alternating.specs.Alternating.{CannotBeClosed, alternating_trellis};
ghost use Rattle.std.specs.Prelude.{◌≡◌};

use coding::Code;

/// Four states in a ring: an input b goes on by 1 + 2b of them, so that even and odd states alternate.
#[derive(Clone, Copy)]
pub struct Alternating;

impl Code for Alternating {
    ghost trellis = { λ _. alternating_trellis };

    fn states(&self) -> u8 {
        4
    }

    fn branch(&self, state: u8, input: u8) -> (u8, u8, u8) {
        ((state + 1 + 2 * input) % 4, input, input ^ (state / 2))
    }

    fn entering(&self, state: u8) -> (u8, u8, u8, u8) {
        let lower = 1 - state % 2;
        let higher = 3 - state % 2;
        (
            lower,
            (state + 3 - lower) % 4 / 2,
            higher,
            (state + 3 - higher) % 4 / 2,
        )
    }
}

/// Carries what proofs/ shows, for the public function below.
fn shown()
    ensures never { CannotBeClosed }
{}

/// No closing inputs lead every state of this code to 0.
pub fn cannot_be_closed()
    ensures { CannotBeClosed }
{
    shown()
}
