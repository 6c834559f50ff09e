// The codes that a letter names, as one type.
ghost use Rattle.coding.specs.Kinds.{kind_closer, kind_trellis};
ghost use Rattle.coding.specs.Letters.{code_lettered};
ghost use Rattle.coding.specs.Names.{code_name};
ghost use Rattle.refusals.specs.Names.{ReadsName, named};
ghost use Rattle.std.specs.Prelude.{◌≡◌, Some};

use super::code::{Closable, Code};
use super::long::Long;
use super::recursive::Recursive;
use refusals::UnknownName;
use std::fmt;
use std::str::FromStr;

/// One of the two codes that plans name by a letter.
// A closed set: each call matches the kind, since no library allocates and none hands out a `dyn`.
// `TryFrom`, `FromStr` and `Display` stand here, at `End` and at `Rate`: std's traits want an impl for each type, and by a rule of
// the project no macro of its own writes impls.
#[derive(Clone, Copy, PartialEq, Eq, Debug)]
pub enum CodeKind {
    Long,
    Recursive,
}

impl TryFrom<u8> for CodeKind {
    type Error = UnknownName;

    ghost try_from_gives = { λ letter r. r ≡ named (code_lettered letter) };

    fn try_from(letter: u8) -> Result<CodeKind, UnknownName> {
        match letter {
            b'L' => Ok(CodeKind::Long),
            b'R' => Ok(CodeKind::Recursive),
            _ => Err(UnknownName),
        }
    }
}

impl FromStr for CodeKind {
    type Err = UnknownName;

    ghost from_str_gives = { ReadsName code_name };

    fn from_str(name: &str) -> Result<CodeKind, UnknownName> {
        match name.as_bytes() {
            [letter] => CodeKind::try_from(*letter),
            _ => Err(UnknownName),
        }
    }
}

impl fmt::Display for CodeKind {
    ghost output = { λ kind. Some (code_name kind) };

    fn fmt<W: fmt::Write>(&self, f: &mut fmt::Formatter<W>) -> fmt::Result {
        f.write_str(match self {
            CodeKind::Long => "L",
            CodeKind::Recursive => "R",
        })
    }
}

impl Code for CodeKind {
    ghost trellis = { kind_trellis };

    fn states(&self) -> u8 {
        match self {
            CodeKind::Long => Long.states(),
            CodeKind::Recursive => Recursive.states(),
        }
    }

    fn branch(&self, state: u8, input: u8) -> (u8, u8, u8) {
        match self {
            CodeKind::Long => Long.branch(state, input),
            CodeKind::Recursive => Recursive.branch(state, input),
        }
    }

    fn entering(&self, state: u8) -> (u8, u8, u8, u8) {
        match self {
            CodeKind::Long => Long.entering(state),
            CodeKind::Recursive => Recursive.entering(state),
        }
    }
}

impl Closable for CodeKind {
    ghost closer = { kind_closer };

    fn memory(&self) -> u8 {
        match self {
            CodeKind::Long => Long.memory(),
            CodeKind::Recursive => Recursive.memory(),
        }
    }

    fn closing(&self, state: u8) -> u8 {
        match self {
            CodeKind::Long => Long.closing(state),
            CodeKind::Recursive => Recursive.closing(state),
        }
    }
}
