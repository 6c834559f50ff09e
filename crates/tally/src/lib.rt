// A message's total reckoned by itself, and the nearest message by a listing of all: what the search is held against.
#![tactic(auto)]

mod listing;
mod reading;
mod reckoning;

pub use listing::spell;
pub use reading::{Readable, Reading};
pub use reckoning::Reckoner;
