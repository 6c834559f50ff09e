// The published piecewise forms of the exact soft bits, in level units there and in steps here.
ghost use Rattle.std.specs.Prelude.{◌*◌, ◌<◌, ◌≤◌, unsigned_abs};

use qam::{Axis, Reading};
use std::fmt;

/// One unit of level, in steps.
const UNIT: i32 = 64;

/// So many times the size of a reading.
fn product(times: i8, size: u16) -> i32
    requires times { unsigned_abs times ≤ 4 }
    requires size { size ≤ 2047 }
    ensures { unsigned_abs result ≤ 4 * 2047 }
{
    i32::from(times) * i32::from(size)
}

/// A piece of a form, in units: from a size on, so many times the size, and so much more.
#[derive(Clone, Copy)]
struct Piece {
    from: i8,
    slope: i8,
    offset: i8,
    ghost slope_small: { unsigned_abs slope ≤ 4 },
    ghost offset_small: { unsigned_abs offset ≤ 12 },
}

impl Piece {
    /// Whether it has begun at the size of a reading.
    fn begins_by(self, reading: Reading) -> bool {
        i32::from(self.from) * UNIT <= i32::from(reading.steps.unsigned_abs())
    }

    /// What it gives the size of a reading.
    fn at(self, reading: Reading) -> i32
        ensures { unsigned_abs result ≤ 16383 }
    {
        product(self.slope, reading.steps.unsigned_abs()) + i32::from(self.offset) * UNIT
    }
}

// y, then 2(y − 1) from 2.
const QAM16_FIRST: [Piece; 2] = [
    Piece {
        from: 0,
        slope: 1,
        offset: 0,
    },
    Piece {
        from: 2,
        slope: 2,
        offset: -2,
    },
];

// 2 − y.
const QAM16_SECOND: [Piece; 1] = [Piece {
    from: 0,
    slope: -1,
    offset: 2,
}];

// y, then 2(y − 1) from 2, 3(y − 2) from 4, and 4(y − 3) from 6.
const QAM64_FIRST: [Piece; 4] = [
    Piece {
        from: 0,
        slope: 1,
        offset: 0,
    },
    Piece {
        from: 2,
        slope: 2,
        offset: -2,
    },
    Piece {
        from: 4,
        slope: 3,
        offset: -6,
    },
    Piece {
        from: 6,
        slope: 4,
        offset: -12,
    },
];

// 2(3 − y), then 4 − y from 2, and 2(5 − y) from 6.
const QAM64_SECOND: [Piece; 3] = [
    Piece {
        from: 0,
        slope: -2,
        offset: 6,
    },
    Piece {
        from: 2,
        slope: -1,
        offset: 4,
    },
    Piece {
        from: 6,
        slope: -2,
        offset: 10,
    },
];

// y − 2, then 6 − y from 4.
const QAM64_THIRD: [Piece; 2] = [
    Piece {
        from: 0,
        slope: 1,
        offset: -2,
    },
    Piece {
        from: 4,
        slope: -1,
        offset: 6,
    },
];

/// What the last piece that has begun gives the size of a reading, of pieces with the one from 0 first.
fn by_pieces(pieces: &[Piece], reading: Reading) -> i32
    ensures { unsigned_abs result ≤ 16383 }
{
    match pieces.iter().rfind(|piece| piece.begins_by(reading)) {
        Some(piece) => piece.at(reading),
        None => 0,
    }
}

/// A bit of one axis of 16-QAM or of 64-QAM.
#[derive(Clone, Copy)]
pub enum Form {
    Qam16First,
    Qam16Second,
    Qam64First,
    Qam64Second,
    Qam64Third,
}

impl Form {
    pub const ALL: [Form; 5] = [
        Form::Qam16First,
        Form::Qam16Second,
        Form::Qam64First,
        Form::Qam64Second,
        Form::Qam64Third,
    ];

    /// Its axis.
    pub fn axis(self) -> Axis {
        match self {
            Form::Qam16First | Form::Qam16Second => Axis { bits: 2 },
            Form::Qam64First | Form::Qam64Second | Form::Qam64Third => Axis { bits: 3 },
        }
    }

    /// Which bit of the axis it is, counted from 0.
    pub fn place(self) -> usize
        ensures { result < 4 }
    {
        match self {
            Form::Qam16First | Form::Qam64First => 0,
            Form::Qam16Second | Form::Qam64Second => 1,
            Form::Qam64Third => 2,
        }
    }

    /// What it gives the size of a reading.
    fn above_zero(self, reading: Reading) -> i32
        ensures { unsigned_abs result ≤ 16383 }
    {
        match self {
            Form::Qam16First => by_pieces(&QAM16_FIRST, reading),
            Form::Qam16Second => by_pieces(&QAM16_SECOND, reading),
            Form::Qam64First => by_pieces(&QAM64_FIRST, reading),
            Form::Qam64Second => by_pieces(&QAM64_SECOND, reading),
            Form::Qam64Third => by_pieces(&QAM64_THIRD, reading),
        }
    }

    /// The soft bit that the form gives a reading: the first bits are mirrored about zero.
    pub fn at(self, reading: Reading) -> i32
        ensures { unsigned_abs result ≤ 16383 }
    {
        let soft = self.above_zero(reading);
        if self.place() == 0 && reading.steps < 0 {
            -soft
        } else {
            soft
        }
    }
}

impl fmt::Display for Form {
    fn fmt<W: fmt::Write>(&self, f: &mut fmt::Formatter<W>) -> fmt::Result {
        let points = 1 << (2 * self.axis().bits);
        let bit = self.place() + 1;
        write!(f, "{points}-QAM bit {bit}")
    }
}
