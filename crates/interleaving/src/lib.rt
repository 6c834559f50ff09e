// Interleavers: they send the positions of a block to places, and back.
#![tactic(auto)]

mod block;
mod cascade;
mod interleaver;
mod kind;
mod layout;
mod steps;
mod theorems;

pub use block::Block;
pub use cascade::{Cascade, TwoStep, two_step};
pub use interleaver::{Interleaver, Straight};
pub use kind::InterleaverKind;
pub use layout::Layout;
pub use steps::{FirstStep, SecondStep};
pub use theorems::{interleavers_are_bijections, positions_are_carried_once};
