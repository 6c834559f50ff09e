// What turns a message into sent bits: a code, how its frames end, and the rate.
use super::puncture::Rate;

/// The code, how a frame ends, and which code bits are sent.
#[derive(Clone, Copy)]
pub struct Coding<C, E> {
    pub code: C,
    pub end: E,
    pub rate: Rate,
}
