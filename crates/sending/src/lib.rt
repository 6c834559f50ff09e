// The sender: a plan's sizes, and a message turned into the cells of its frame.
#![tactic(auto)]

mod label;
mod link;
mod plan;
mod planned;

pub use link::Link;
pub use plan::{FrameSize, Plan};
