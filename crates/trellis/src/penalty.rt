// What a sent bit pays for a soft number.
ghost use Rattle.std.specs.Prelude.{◌≡◌, ◌≤◌, unsigned_abs};
ghost use Rattle.paths.specs.Orders.{heaviest};
ghost use Rattle.trellis.specs.Penalties.{limited, penalty};

/// The largest penalty: a soft number beyond it, either way, is read as it.
const HEAVIEST: i32 = 16_759_809;

/// A soft number as it is read.
fn limit_soft(soft: i32) -> i32
    ensures is { result ≡ limited soft }
    ensures small { unsigned_abs result ≤ heaviest }
{
    soft.clamp(-HEAVIEST, HEAVIEST)
}

/// What a bit pays for a soft number within the limit.
fn pay(soft: i32, bit: u8) -> u32
    requires { unsigned_abs soft ≤ heaviest }
    ensures is { result ≡ penalty soft bit }
    ensures light { result ≤ heaviest }
{
    let against = if bit == 0 { soft } else { -soft };
    against.max(0) as u32
}

/// What the sent bit pays at a soft number: its size where the two disagree, and else nothing.
pub fn penalty_at(soft: i32, bit: u8) -> u32
    ensures is { result ≡ penalty (limited soft) bit }
    ensures light { result ≤ heaviest }
{
    pay(limit_soft(soft), bit)
}
