// What a code is, and what a closable code is besides. Both are fixed maps: a call alters nothing and refuses nothing.
ghost use Rattle.std.specs.Prelude.{◌≡◌, ◌<◌};
ghost use Rattle.paths.specs.Codes.{Trellis};
ghost use Rattle.paths.specs.Endings.{Closer, CloserLaws};

/// A code of at most 64 states, numbered from 0: it starts in state 0.
// Branches are plain tuples of numbers: that form is fixed by a rule of the project, for those who write a code of their own. So a
// state is a plain number too, asked to be below the count: a type could say so only of one code, whose count may depend on its value.
pub trait Code: Copy {
    // The code's meaning, with its laws.
    ghost trellis: { Self → Trellis };

    /// How many states it has.
    fn states(&self) -> u8
        ensures { result ≡ (trellis self.now).code.states };

    /// The next state, the first code bit and the second.
    fn branch(&self, state: u8, input: u8) -> (u8, u8, u8)
        requires state { state < (trellis self.now).code.states }
        requires input { input < 2 }
        ensures next { result.0 ≡ (trellis self.now).code.next state input }
        ensures first { result.1 ≡ (trellis self.now).code.first state input }
        ensures second { result.2 ≡ (trellis self.now).code.second state input };

    /// The lower predecessor of a state with its input, and the higher with its.
    fn entering(&self, state: u8) -> (u8, u8, u8, u8)
        requires { state < (trellis self.now).code.states }
        ensures lower { result.0 ≡ ((trellis self.now).code.lower state).from }
        ensures lower_input { result.1 ≡ ((trellis self.now).code.lower state).input }
        ensures higher { result.2 ≡ ((trellis self.now).code.higher state).from }
        ensures higher_input { result.3 ≡ ((trellis self.now).code.higher state).input };
}

/// A code that a few closing inputs lead back to state 0.
pub trait Closable: Code {
    ghost closer: { Self → Closer };

    /// The memory: so many closing inputs, and no other so many inputs, lead from any state to 0.
    fn memory(&self) -> u8
        ensures is { result ≡ (closer self.now).memory }
        ensures closes { CloserLaws (Self.Code.trellis self.now).code (closer self.now) };

    /// The closing input of a state.
    fn closing(&self, state: u8) -> u8
        requires { state < (Self.Code.trellis self.now).code.states }
        ensures { result ≡ (closer self.now).close state };
}
