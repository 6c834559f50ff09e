// What is shown of every interleaver, on the contracts of functions that compute nothing.
ghost use Rattle.interleaving.specs.Blocks.{EveryPositionOnce};
ghost use Rattle.interleaving.specs.Theorems.{EveryColumnCount, EveryInterleaver, TwoStepTakes};

/// Carries what proofs/ shows, for the public functions below.
fn shown()
    ensures each { EveryInterleaver }
    ensures columns { EveryColumnCount }
    ensures taken { TwoStepTakes }
    ensures once { EveryPositionOnce }
{}

/// Place and position are inverse bijections on every block that is taken, and the two steps are so for every number of columns.
pub fn interleavers_are_bijections()
    ensures every { EveryInterleaver }
    ensures steps { EveryColumnCount }
    ensures two_step { TwoStepTakes }
{
    shown()
}

/// Every position of a frame is one bit of one cell, and every bit of a cell has one position.
pub fn positions_are_carried_once()
    ensures { EveryPositionOnce }
{
    shown()
}
