// Levels and Gray labels of QAM axes, readings and cells. Bits of a label are counted from 1, the highest first.
#![tactic(auto)]

mod axis;
mod cell;
mod gray;
mod range;
mod reading;

pub use axis::Axis;
pub use cell::QamCell;
pub use gray::{label, label_bit, number_labelled, reading_labelled};
pub use range::OutOfRange;
pub use reading::Reading;
