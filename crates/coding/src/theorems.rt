// What is shown of every message, on the contracts of functions that compute nothing.
ghost use Rattle.coding.specs.Encoding.{MessagesWellSent, SentCounts};

/// Carries what proofs/ shows, for the public function below.
fn shown()
    ensures sends { MessagesWellSent }
    ensures counted { SentCounts }
{}

/// Every message sends bits, as many as its steps send; so many are they at each rate.
pub fn messages_are_well_sent()
    ensures sent { MessagesWellSent }
    ensures counts { SentCounts }
{
    shown()
}
