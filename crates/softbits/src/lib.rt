// Soft bits: specs/ says what they are, and the contracts here what holds of them at every reading.
#![tactic(auto)]

ghost use Rattle.softbits.specs.Examples.{WorkedSoftBits};
ghost use Rattle.softbits.specs.SoftBits.{divisor, exact, near, short};
ghost use Rattle.softbits.specs.Theorems.{AllNearest, Bounded, NoRemainder, SameAtLast, SameSign, SignsTell};
ghost use Rattle.std.specs.Prelude.{◌≡◌, pos, unsigned_abs};

/// What was computed of the soft bits.
fn facts()
    ensures divides { NoRemainder (pos divisor) }
    ensures range { Bounded (λ m k r. unsigned_abs (exact m k r)) 12792 }
    ensures same_sign { SameSign short exact }
    ensures same_last { SameAtLast short exact }
    ensures nearest { AllNearest near }
    ensures tell { SignsTell exact }
{}

/// The number that the exact soft bit is divided by, and always without remainder.
pub fn exact_divisor() -> i32
    ensures value { result ≡ pos divisor }
    ensures divides { NoRemainder result }
{
    facts();
    256
}

/// The size of the largest exact soft bit: bit 1 of four has it at the reading 2,047.
pub fn exact_range() -> u32
    ensures bound { Bounded (λ m k r. unsigned_abs (exact m k r)) result }
    ensures reached { unsigned_abs (exact 4 1 (pos 2047)) ≡ result }
{
    facts();
    12_792
}

/// The short soft bits have the signs of the exact ones, and are these at the last bit of an axis.
pub fn short_agrees()
    ensures sign { SameSign short exact }
    ensures last { SameAtLast short exact }
{
    facts()
}

/// near(c) is the squared distance of a nearest level whose label bit is c.
pub fn near_is_nearest()
    ensures { AllNearest near }
{
    facts()
}

/// A demapper with the signs of the exact soft bits tells the bits of each level.
pub fn signs_tell()
    ensures { SignsTell exact }
{
    facts()
}

/// The worked soft bits hold.
pub fn worked_soft_bits()
    ensures { WorkedSoftBits }
{}
