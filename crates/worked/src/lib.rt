// The worked numbers, gathered under one theorem over the definitions that the contracts use.
#![tactic(auto)]

ghost use Rattle.worked.specs.Worked.{Worked};

use softbits::worked_soft_bits;
use trellis::worked_totals;

/// Carries what antt computes, for the public function below.
fn computed()
    ensures all { Worked }
{
    worked_soft_bits();
    worked_totals();
}

/// The worked numbers hold of the definitions.
pub fn worked_numbers()
    ensures { Worked }
{
    computed()
}
