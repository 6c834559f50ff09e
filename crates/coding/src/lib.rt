// Codes, endings and puncturing: from a message to the bits that are sent.
#![tactic(auto)]

mod code;
mod encoding;
mod ending;
mod kind;
mod long;
mod puncture;
mod recursive;
mod theorems;

pub use code::{Closable, Code};
pub use encoding::Coding;
pub use ending::{End, Ending, NoEnd};
pub use kind::CodeKind;
pub use long::Long;
pub use puncture::{Rate, sent_code_bits, sent_in};
pub use recursive::Recursive;
pub use theorems::messages_are_well_sent;
