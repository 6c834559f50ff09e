// Codes, paths and endings as mathematics: definitions, and theorems on the contracts of functions that compute nothing.
#![tactic(auto)]

ghost use Rattle.paths.specs.Best.{BestPath};
ghost use Rattle.paths.specs.Theorems.{CloserTest, ClosingTakesSteps, CodeTest};

/// Carries what proofs/ shows, for the public functions below.
fn shown()
    ensures codes { CodeTest }
    ensures closers { CloserTest }
    ensures closing { ClosingTakesSteps }
{}

/// The computed tests of a code and of a way of closing it show the laws of both.
pub fn tests_show_laws()
    ensures code { CodeTest }
    ensures closer { CloserTest }
{
    shown()
}

/// To close a code takes at least one step.
pub fn closing_takes_steps()
    ensures { ClosingTakesSteps }
{
    shown()
}

/// Carries what proofs/ shows of survivors, for the public function below.
fn survivors_shown<X>()
    ensures best { BestPath X }
{}

/// The survivors of a trellis are its best paths, and the survivor in which a frame ends is the best message: the only one.
pub fn survivors_are_best<X>()
    ensures { BestPath X }
{
    survivors_shown::<X>()
}
