// The interleavers that a letter names, as one type.
ghost use Rattle.interleaving.specs.Letters.{interleaver_lettered};
ghost use Rattle.interleaving.specs.Names.{interleaver_name};
ghost use Rattle.interleaving.specs.TwoStep.{kind_interleaving};
ghost use Rattle.refusals.specs.Names.{ReadsName, named};
ghost use Rattle.std.specs.Prelude.{◌≡◌, Some};

use super::block::Block;
use super::cascade::two_step;
use super::interleaver::{Interleaver, Straight};
use refusals::UnknownName;
use std::fmt;
use std::str::FromStr;

/// One of the two interleavers that plans name by a letter.
// A closed set: each call matches the kind, since no library allocates and none hands out a `dyn`.
#[derive(Clone, Copy, PartialEq, Eq, Debug)]
pub enum InterleaverKind {
    Straight,
    TwoStep,
}

// Each type with a name has the next three impls of its own: std's traits want one impl a type, and no macro here may write impls.
impl TryFrom<u8> for InterleaverKind {
    type Error = UnknownName;

    ghost try_from_gives = { λ letter r. r ≡ named (interleaver_lettered letter) };

    fn try_from(letter: u8) -> Result<InterleaverKind, UnknownName> {
        match letter {
            b'S' => Ok(InterleaverKind::Straight),
            b'T' => Ok(InterleaverKind::TwoStep),
            _ => Err(UnknownName),
        }
    }
}

impl FromStr for InterleaverKind {
    type Err = UnknownName;

    ghost from_str_gives = { ReadsName interleaver_name };

    fn from_str(name: &str) -> Result<InterleaverKind, UnknownName> {
        match name.as_bytes() {
            [letter] => InterleaverKind::try_from(*letter),
            _ => Err(UnknownName),
        }
    }
}

impl fmt::Display for InterleaverKind {
    ghost output = { λ kind. Some (interleaver_name kind) };

    fn fmt<W: fmt::Write>(&self, f: &mut fmt::Formatter<W>) -> fmt::Result {
        f.write_str(match self {
            InterleaverKind::Straight => "S",
            InterleaverKind::TwoStep => "T",
        })
    }
}

impl Interleaver for InterleaverKind {
    ghost interleaving = { kind_interleaving };

    fn takes(&self, block: Block) -> bool {
        match self {
            InterleaverKind::Straight => Straight.takes(block),
            InterleaverKind::TwoStep => two_step().takes(block),
        }
    }

    fn place(&self, block: Block, position: usize) -> usize {
        match self {
            InterleaverKind::Straight => Straight.place(block, position),
            InterleaverKind::TwoStep => two_step().place(block, position),
        }
    }

    fn position(&self, block: Block, place: usize) -> usize {
        match self {
            InterleaverKind::Straight => Straight.position(block, place),
            InterleaverKind::TwoStep => two_step().position(block, place),
        }
    }
}
