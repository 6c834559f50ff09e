// The nearest message: penalties, and the search through a trellis for the message of the least total.
#![tactic(auto)]

mod cost;
mod nearest;
mod penalty;
mod search;
mod step;
mod stores;
mod table;
mod theorems;
mod totals;
mod words;

pub use nearest::nearest_message;
pub use penalty::penalty_at;
pub use stores::Stores;
pub use theorems::{nearest_is_one, worked_totals};
