// The frames of a receiver. Their calls are not public yet: they come with the proof of the law of a frame's whole life.
#![tactic(auto)]

mod filling;
mod frame;
mod sealed;
mod soft_cell;
