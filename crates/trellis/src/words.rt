// Words of 64 states, a bit for each.
//
// A state is a plain number here, asked to be below 64, and so are the states of a row, at most 64: a type that keeps this would be made
// from the number in every turn of the loops that count states.
ghost use Rattle.std.specs.Prelude.{◌≡◌, ◌+◌, ◌-◌, ◌*◌, ◌^◌, ◌<◌, ◌≤◌, if◌then◌else◌, bit_or};
ghost use Rattle.paths.specs.Rows.{bit_of};

/// Whether the bit of a state is set in a word.
pub(crate) fn is_marked(word: u64, state: usize) -> bool
    requires { state < 64 }
    ensures { result ≡ bit_of word state }
{
    (word >> state) & 1 == 1
}

/// A word with the bit of a state set, if it is to be.
// By `word | u64::from(set) << state` it was not proved: that a shifted 0 is 0 was left.
pub(crate) fn marked(word: u64, state: usize, set: bool) -> u64
    requires { state < 64 }
    ensures { result ≡ (if set then bit_or word (2 ^ state) else word) }
{
    if set { word | 1 << state } else { word }
}

/// The word with a bit more below the others. The flag is the bit.
pub(crate) fn shifted_in(word: u64, set: bool) -> u64
    requires { word < 2 ^ 63 }
    ensures { result ≡ 2 * word + (if set then 1 else 0) }
{
    2 * word + u64::from(set)
}

/// The word in which every state is marked.
pub(crate) fn all_marked(states: usize) -> u64
    requires { states ≤ 64 }
    ensures { result ≡ 2 ^ states - 1 }
{
    ((1_u128 << states) - 1) as u64
}
