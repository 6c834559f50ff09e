// Demappers: from an axis and a reading four soft bits, positive for a 1 and negative for a 0.
#![tactic(auto)]

ghost use Rattle.softbits.specs.Demapping.{Demapping, Tells, answers};
ghost use Rattle.std.specs.Prelude.{◌≡◌};

mod by_folding;
mod by_sign;
mod by_squares;
mod theorems;

pub use by_folding::Short;
pub use by_sign::Hard;
pub use by_squares::Exact;
use qam::{Axis, Reading};
pub use theorems::{exact_is_exact, short_gap};

/// A fixed map from an axis and a reading to its soft bits, the first bit first, zero past the axis's last.
pub trait Demapper: Copy {
    // Its meaning, with the range and the zeros as laws.
    ghost demapping: { Self → Demapping };

    // Four numbers by value whatever the axis: a form fixed by a rule of the project.
    fn soft(&self, axis: Axis, reading: Reading) -> [i32; 4]
        ensures { result ≡ answers (demapping self.now) axis.bits reading.steps };
}

/// A demapper that tells, at a level's own reading, the bits of the level's label.
pub trait Telling: Demapper {
    // It does nothing: the contract is for the caller's proof.
    fn tells(&self)
        ensures { Tells (Self.Demapper.demapping self.now) };
}

#[cfg(test)]
mod tests {
    use super::*;

    #[test]
    fn worked_readings(rt: HostRuntime) {
        assert_eq!(rt;
            Exact.soft(Axis { bits: 2 }, Reading { steps: 129 }),
            [130, -1, 0, 0]
        );
        assert_eq!(rt;
            Exact.soft(Axis { bits: 3 }, Reading { steps: 400 }),
            [832, -160, -16, 0]
        );
        assert_eq!(rt;
            Short.soft(Axis { bits: 3 }, Reading { steps: 400 }),
            [400, -144, -16, 0]
        );
        assert_eq!(rt;
            Hard.soft(Axis { bits: 3 }, Reading { steps: 0 }),
            [0, 64, -64, 0]
        );
    }
}
