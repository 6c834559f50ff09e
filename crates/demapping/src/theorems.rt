// What holds of the demappers at every reading.
ghost use Rattle.demapping.specs.Demappings.{exact_demapping, hard_demapping, short_demapping};
ghost use Rattle.softbits.specs.Demapping.{IsExact, Tells, gap};
ghost use Rattle.softbits.specs.Theorems.{Bounded};
ghost use Rattle.std.specs.Prelude.{◌≡◌, pos};

use crate::Telling;
use crate::by_folding::Short;
use crate::by_sign::Hard;
use crate::by_squares::Exact;

/// What the demappings owe to the facts of the soft bits.
fn facts()
    ensures exact { IsExact exact_demapping }
    ensures gap { Bounded (gap short_demapping) 10745 }
    ensures exact_tells { Tells exact_demapping }
    ensures short_tells { Tells short_demapping }
    ensures hard_tells { Tells hard_demapping }
{}

/// `Exact` answers the exact soft bits.
pub fn exact_is_exact()
    ensures { IsExact exact_demapping }
{
    facts()
}

/// The largest gap of `Short`: bit 1 of four has it at the reading 2,047.
pub fn short_gap() -> u32
    ensures bound { Bounded (gap short_demapping) result }
    ensures reached { gap short_demapping 4 1 (pos 2047) ≡ result }
{
    facts();
    10_745
}

impl Telling for Exact {
    fn tells(&self) {
        facts()
    }
}

impl Telling for Short {
    fn tells(&self) {
        facts()
    }
}

impl Telling for Hard {
    fn tells(&self) {
        facts()
    }
}
