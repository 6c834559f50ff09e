// What a frame has received, and how near a message is to it: definitions, and theorems on the contracts of functions that compute nothing.
#![tactic(auto)]

ghost use Rattle.orders.specs.CountFirst.{counts};
ghost use Rattle.reception.specs.Theorems.{LeastIsNearest, SumsPreferFree, UnharmedComesBack};
ghost use Rattle.reception.specs.Unharmed.{PrefersFree};

/// Carries what proofs/ shows, for the public functions below.
fn shown<X>()
    ensures nearest { LeastIsNearest X }
    ensures back { UnharmedComesBack X }
    ensures sums { SumsPreferFree X }
    ensures counts { PrefersFree counts }
{}

/// The message of the least total is as near as the demapper allows, and with the exact demapper the nearest.
pub fn least_is_nearest<X>()
    ensures { LeastIsNearest X }
{
    shown::<X>()
}

/// Cells that came unharmed lead back to a message that sends the same cells.
pub fn unharmed_comes_back<X>()
    ensures { UnharmedComesBack X }
{
    shown::<X>()
}

/// Every order whose totals are sums prefers what pays nothing, and so does the one that counts first.
pub fn orders_prefer_free<X>()
    ensures sums { SumsPreferFree X }
    ensures count_first { PrefersFree counts }
{
    shown::<X>()
}
