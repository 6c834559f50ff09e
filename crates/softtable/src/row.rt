// A line of the table.
ghost use Rattle.std.specs.Prelude.{◌≡◌, ◌<◌, ◌-ℤ◌, is_some, IfSome, unsigned_abs};
ghost use Rattle.softtable.specs.Lines.{Line, has_line};

use demapping::{Demapper, Exact, Hard, Short};
use qam::{Axis, Reading};
use std::fmt;

/// The three soft bits of one bit, counted from 1, of a reading.
#[derive(Clone, Copy, PartialEq, Eq, Debug)]
pub struct Row {
    pub reading: i32,
    pub bit: u8,
    pub exact: i32,
    pub short: i32,
    pub hard: i32,
}

/// The line of a place of an axis.
fn line(axis: Axis, place: u8, reading: Reading) -> Row
    requires { place < 4 }
    ensures { Line axis.bits place reading.steps result }
{
    let at = usize::from(place);
    Row {
        reading: i32::from(reading.steps),
        bit: place + 1,
        exact: Exact.soft(axis, reading)[at],
        short: Short.soft(axis, reading)[at],
        hard: Hard.soft(axis, reading)[at],
    }
}

impl Row {
    /// The line of a place, counted from 0, of an axis with m bits; none where there is no such place or reading.
    // It takes plain numbers, since it is the test of whether they have a line.
    pub fn at(m: u8, place: u8, r: i32) -> Option<Row>
        ensures some { is_some result ≡ has_line m place r }
        ensures line { IfSome result (Line m place r) }
    {
        let axis = Axis::try_from(m).ok()?;
        let reading = Reading::try_from(i16::try_from(r).ok()?).ok()?;
        if place < axis.bits {
            Some(line(axis, place, reading))
        } else {
            None
        }
    }

    /// How far the short soft bit is from the exact one.
    pub fn short_gap(&self) -> u32
        ensures { result ≡ unsigned_abs (self.now.short -ℤ self.now.exact) }
    {
        self.short.abs_diff(self.exact)
    }

    /// How far the hard soft bit is from the exact one.
    pub fn hard_gap(&self) -> u32
        ensures { result ≡ unsigned_abs (self.now.hard -ℤ self.now.exact) }
    {
        self.hard.abs_diff(self.exact)
    }
}

impl fmt::Display for Row {
    fn fmt<W: fmt::Write>(&self, f: &mut fmt::Formatter<W>) -> fmt::Result {
        let Row {
            reading,
            bit,
            exact,
            short,
            hard,
        } = *self;
        let short_gap = self.short_gap();
        let hard_gap = self.hard_gap();
        write!(
            f,
            "{reading}\t{bit}\t{exact}\t{short}\t{hard}\t{short_gap}\t{hard_gap}"
        )
    }
}
