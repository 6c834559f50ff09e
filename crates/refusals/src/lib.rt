// Why a call is refused: each refusal goes by a number that never changes. And the error of a name that stands for nothing.
#![tactic(auto)]

ghost use Rattle.refusals.specs.Numbers.{number as refusal_number};
ghost use Rattle.std.specs.Prelude.{◌≡◌};

use thiserror::Error;

/// Why a call is refused. A refused call changes nothing.
#[derive(Clone, Copy, PartialEq, Eq, Debug, Error)]
pub enum Refusal {
    #[error("bits per axis outside 1 to 4")]
    BitsPerAxis = 1,
    #[error("message length outside 1 to 4090 bits")]
    MessageLength = 2,
    #[error("block length outside 1 to 64 cells")]
    BlockLength = 3,
    #[error("the interleaver takes no such block")]
    BlockNotTaken = 4,
    #[error("fewer soft numbers than bits sent")]
    SoftNumbers = 5,
    #[error("reading outside -2047 to 2047")]
    ReadingRange = 6,
    #[error("weight above 1023")]
    WeightRange = 7,
    #[error("all cells of the frame have come")]
    FrameFull = 8,
    #[error("cells of the frame are missing")]
    CellsMissing = 9,
    #[error("decision store under one word a step")]
    DecisionStore = 10,
    #[error("total store under one total a state")]
    TotalStore = 11,
    #[error("message buffer shorter than the message")]
    MessageBuffer = 12,
    #[error("a message byte is neither 0 nor 1")]
    MessageBit = 13,
    #[error("cell buffer shorter than the frame")]
    CellBuffer = 14,
}

impl Refusal {
    /// The number of the refusal.
    pub fn number(self) -> u8
        ensures { result ≡ refusal_number self }
    {
        self as u8
    }
}

/// A letter, a number or a text that names nothing.
#[derive(Clone, Copy, PartialEq, Eq, Debug, Error)]
#[error("it names nothing")]
pub struct UnknownName;
