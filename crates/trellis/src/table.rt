// The branches of a code as a table, made once for a search.
ghost use Rattle.std.specs.Prelude.{◌≡◌, ◌<◌, ◌≤◌, length};
ghost use Rattle.trellis.specs.Steps.{ForksInside, Tabled, fork_at, way_by};

use coding::Code;

/// A branch: the state that it leaves, and its code bits c and d as the pair 2c + d.
#[derive(Clone, Copy)]
pub struct Way {
    pub from: u8,
    pub bits: u8,
}

/// The two branches into a state.
#[derive(Clone, Copy)]
pub struct Fork {
    pub lower: Way,
    pub higher: Way,
}

/// Places for the branches into the most states that a code may have.
pub(crate) const NO_FORKS: [Fork; 64] = [Fork {
    lower: Way { from: 0, bits: 0 },
    higher: Way { from: 0, bits: 0 },
}; 64];

/// The branches into every state, made once for a search.
//
// Written into an array for the most states, and their number beside it: nothing is allocated here, and a code's number of states is a
// function of its value, so that no array type can have it. The array is lent: one that moved with the table would be copied by `memcpy`,
// which the library for C would then need from outside.
#[derive(Clone, Copy)]
pub struct Table<'a> {
    pub forks: &'a [Fork],
    pub states: usize,
    ghost few: { states ≤ 64 },
    ghost size: { states ≤ length forks.now },
    ghost inside: { ForksInside states forks.now },
}

/// The branch out of a state by an input.
fn way_by<C: Code>(code: &C, from: u8, input: u8) -> Way
    requires state { from < (C.Code.trellis code.now).code.states }
    requires input { input < 2 }
    ensures { result ≡ way_by (C.Code.trellis code.now).code (record { from = from; input = input }) }
{
    let (_, first, second) = code.branch(from, input);
    Way {
        from,
        bits: 2 * first + second,
    }
}

/// The branches into a state.
fn fork_into<C: Code>(code: &C, state: u8) -> Fork
    requires { state < (C.Code.trellis code.now).code.states }
    ensures { result ≡ fork_at (C.Code.trellis code.now).code state }
{
    let (lower, lower_input, higher, higher_input) = code.entering(state);
    Fork {
        lower: way_by(code, lower, lower_input),
        higher: way_by(code, higher, higher_input),
    }
}

/// Writes the branches into every state.
fn tabulate<C: Code>(code: &C, forks: &mut [Fork])
    requires { (C.Code.trellis code.now).code.states ≤ length forks.old }
    ensures { Tabled (C.Code.trellis code.now).code (C.Code.trellis code.now).code.states forks.new }
{
    let states = usize::from(code.states());
    for (state, fork) in forks[..states].iter_mut().enumerate() {
        *fork = fork_into(code, state as u8);
    }
}

impl<'a> Table<'a> {
    /// The table of a code.
    pub(crate) fn new<C: Code>(code: &C, forks: &'a mut [Fork; 64]) -> Table<'a>
        ensures states { result.states ≡ (C.Code.trellis code.now).code.states }
        ensures tabled { Tabled (C.Code.trellis code.now).code (C.Code.trellis code.now).code.states result.forks.now }
    {
        tabulate(code, forks);
        Table {
            forks,
            states: usize::from(code.states()),
        }
    }
}
