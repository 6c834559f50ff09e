// How a frame ends: closed or open where the code is closable, and open where it is not.
ghost use Rattle.std.specs.Prelude.{◌≡◌, ◌<◌, Some};
ghost use Rattle.coding.specs.Endings.{end_of};
ghost use Rattle.coding.specs.Letters.{end_lettered};
ghost use Rattle.coding.specs.Names.{end_name};
ghost use Rattle.paths.specs.Endings.{Tail, Tail.unclosed, TailLaws, closing_input, closing_steps};
ghost use Rattle.refusals.specs.Names.{ReadsName, named};

use super::code::{Closable, Code};
use refusals::UnknownName;
use std::fmt;
use std::str::FromStr;

/// How a frame of the code C ends.
pub trait Ending<C: Code>: Copy {
    // Left as it ends, or closed.
    ghost tail: { Self → C → Tail };

    /// How many closing inputs a frame appends; what closes it keeps the laws.
    fn closing_steps(&self, code: &C) -> u8
        ensures is { result ≡ closing_steps (tail self.now code.now) }
        ensures lawful { TailLaws (C.Code.trellis code.now).code (tail self.now code.now) };

    /// The closing input of a state.
    fn closing_input(&self, code: &C, state: u8) -> u8
        requires { state < (C.Code.trellis code.now).code.states }
        ensures { result ≡ closing_input (tail self.now code.now) state };
}

/// The end of a code that is not closable: there is none to name, and its frames are open.
#[derive(Clone, Copy)]
pub struct NoEnd;

impl<C: Code> Ending<C> for NoEnd {
    ghost tail = { λ _ _. unclosed };

    fn closing_steps(&self, _code: &C) -> u8 {
        0
    }

    fn closing_input(&self, _code: &C, _state: u8) -> u8 {
        0
    }
}

/// The ends of a closable code: open, where nothing is appended, or closed by the code's closing inputs.
// Its own `TryFrom`, `FromStr` and `Display`: see `CodeKind`.
#[derive(Clone, Copy, PartialEq, Eq, Debug)]
pub enum End {
    Open,
    Closed,
}

impl TryFrom<u8> for End {
    type Error = UnknownName;

    ghost try_from_gives = { λ letter r. r ≡ named (end_lettered letter) };

    fn try_from(letter: u8) -> Result<End, UnknownName> {
        match letter {
            b'C' => Ok(End::Closed),
            b'O' => Ok(End::Open),
            _ => Err(UnknownName),
        }
    }
}

impl FromStr for End {
    type Err = UnknownName;

    ghost from_str_gives = { ReadsName end_name };

    fn from_str(name: &str) -> Result<End, UnknownName> {
        match name.as_bytes() {
            [letter] => End::try_from(*letter),
            _ => Err(UnknownName),
        }
    }
}

impl fmt::Display for End {
    ghost output = { λ end. Some (end_name end) };

    fn fmt<W: fmt::Write>(&self, f: &mut fmt::Formatter<W>) -> fmt::Result {
        f.write_str(match self {
            End::Closed => "C",
            End::Open => "O",
        })
    }
}

impl<C: Closable> Ending<C> for End {
    ghost tail = { λ e c. end_of e (C.Closable.closer c) };

    fn closing_steps(&self, code: &C) -> u8 {
        match self {
            End::Open => 0,
            End::Closed => code.memory(),
        }
    }

    fn closing_input(&self, code: &C, state: u8) -> u8 {
        match self {
            End::Open => 0,
            End::Closed => code.closing(state),
        }
    }
}
