// What the arguments of a call ask for.
use crate::span::Span;
use qam::{Axis, Reading};
use std::num::NonZeroU32;
use std::str::FromStr;
use thiserror::Error;

/// What a call asks for.
#[derive(Clone, Copy, PartialEq, Eq, Debug)]
pub enum Request {
    Help,
    Version,
    Table(Span),
}

/// Why a call is refused.
#[derive(Clone, Copy, PartialEq, Eq, Debug, Error)]
pub enum Fault {
    #[error("give M FROM [TO [STEP]], or --help")]
    Words,
    #[error("M, the bits of an axis, is 1, 2, 3 or 4")]
    Bits,
    #[error("a reading is a whole number from -2047 to 2047")]
    Reading,
    #[error("TO is below FROM")]
    Order,
    #[error("STEP is a whole number above 0")]
    Step,
}

/// The value of a word: the word is a number, and the number is in the value's range.
fn value<N, T>(word: &str, fault: Fault) -> Result<T, Fault>
where
    N: FromStr,
    T: TryFrom<N>,
    N::Err: Drop,
    T::Error: Drop,
{
    let number = word.parse::<N>().map_err(|_| fault)?;
    T::try_from(number).map_err(|_| fault)
}

/// The span of two to four words.
fn asked(words: &[String]) -> Result<Span, Fault> {
    let (bits, from, to, apart) = match words {
        [bits, from] => (bits, from, from, None),
        [bits, from, to] => (bits, from, to, None),
        [bits, from, to, apart] => (bits, from, to, Some(apart)),
        _ => return Err(Fault::Words),
    };
    let axis = value::<u8, Axis>(bits.as_str(), Fault::Bits)?;
    let from = value::<i16, Reading>(from.as_str(), Fault::Reading)?;
    let to = value::<i16, Reading>(to.as_str(), Fault::Reading)?;
    let apart = match apart {
        Some(apart) => value::<u32, NonZeroU32>(apart.as_str(), Fault::Step)?.get(),
        None => 1,
    };
    if to < from {
        return Err(Fault::Order);
    }
    Ok(Span {
        bits: axis.bits,
        from: i32::from(from.steps),
        to: i32::from(to.steps),
        apart,
    })
}

impl Request {
    /// The request of a call's words.
    pub fn of(words: &[String]) -> Result<Request, Fault> {
        match words.first().map(|word| word.as_str()) {
            None => Err(Fault::Words),
            Some("--help") => Ok(Request::Help),
            Some("--version") => Ok(Request::Version),
            Some(_) => Ok(Request::Table(asked(words)?)),
        }
    }
}

#[cfg(test)]
mod tests {
    use super::*;
    use std::alloc::AllocError;
    use std::test::Fail;

    fn asked_by(rt: &HostRuntime, line: &str) -> Result<Result<Request, Fault>, AllocError> {
        let mut words = Vec::new(rt.alloc());
        for word in line.split_whitespace() {
            words.push(String::from_str(rt.alloc(), word)?)?;
        }
        Ok(Request::of(words.as_slice()))
    }

    #[test]
    fn spans(rt: HostRuntime) -> Result<(), Fail> {
        let one = Span {
            bits: 2,
            from: -7,
            to: -7,
            apart: 1,
        };
        let few = Span {
            bits: 4,
            from: -7,
            to: 9,
            apart: 3,
        };
        assert_eq!(rt; asked_by(&rt, "2 -7")?, Ok(Request::Table(one)));
        assert_eq!(rt; asked_by(&rt, "4 -7 9 3")?, Ok(Request::Table(few)));
        assert_eq!(rt; asked_by(&rt, "--version")?, Ok(Request::Version));
        Ok(())
    }

    #[test]
    fn refusals(rt: HostRuntime) -> Result<(), Fail> {
        assert_eq!(rt; asked_by(&rt, "2")?, Err(Fault::Words));
        assert_eq!(rt; asked_by(&rt, "5 0")?, Err(Fault::Bits));
        assert_eq!(rt; asked_by(&rt, "4 2048")?, Err(Fault::Reading));
        assert_eq!(rt; asked_by(&rt, "4 9 8")?, Err(Fault::Order));
        assert_eq!(rt; asked_by(&rt, "4 8 9 0")?, Err(Fault::Step));
        Ok(())
    }
}
