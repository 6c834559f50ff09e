// What is shown of every search, on the contracts of functions that compute nothing.
ghost use Rattle.trellis.specs.Nearest.{OneNearest};
ghost use Rattle.trellis.specs.Worked.{WorkedTotals};

/// Two messages that both have the least total and the earliest trail are one, and so are their totals.
pub fn nearest_is_one<X>()
    ensures { OneNearest X }
{}

/// The totals of a worked example: 522, 304, 12 and 358 for the messages 00, 01, 10 and 11.
pub fn worked_totals()
    ensures { WorkedTotals }
{}
