// The exact demapper: the squared distance from each level is formed once, and each bit takes its least from the table.
ghost use Rattle.std.specs.Prelude.{◌≡◌, ◌<◌, ◌≤◌, ℤ, nat_eq};
ghost use Rattle.demapping.specs.Demappings.{exact_demapping};
ghost use Rattle.demapping.specs.Steps.{Squares, at, exact_from};
ghost use Rattle.qam.specs.Levels.{BitOf, label_bit};
ghost use Rattle.softbits.specs.SoftBits.{apart, first_with, least_with};

use crate::Demapper;
use qam::{Axis, Reading, label_bit};
use std::array;

/// The squared distance of a reading from a level.
fn square_at(axis: Axis, reading: Reading, number: usize) -> u32
    requires { number < 16 }
    ensures { result ≡ apart axis.bits reading.steps number }
{
    let distance = u32::from(reading.steps.abs_diff(axis.level(number as u8)));
    distance * distance
}

/// The squared distance of a reading at each level number below 16; those past the levels of the axis are not read. The reading itself
/// is not kept: each bit is told by the distances alone, of whatever reading they are.
// Which bit k and which value c of it stay two arguments of each method: they change from call to call.
#[derive(Clone, Copy)]
struct Distances {
    axis: Axis,
    // As many places as the largest axis has levels: a library allocates nothing.
    squared: [u32; 16],
}

impl Distances {
    fn of(axis: Axis, reading: Reading) -> Distances
        ensures axis { result.axis ≡ axis }
        ensures each { Squares axis.bits reading.steps result.squared }
    {
        let mut squared = [0; 16];
        for (number, square) in squared.iter_mut().enumerate() {
            *square = square_at(axis, reading, number);
        }
        Distances { axis, squared }
    }

    /// The number of a level whose label bit k is c.
    #[tactic(auto, using(softbits::proofs::Leasts::first_few))]
    fn first_with(&self, k: u8, c: u8) -> usize
        requires within { BitOf self.now.axis.bits k }
        requires value { c < 2 }
        ensures value { result ≡ first_with self.now.axis.bits k c }
        ensures few { result < 16 }
    {
        usize::from(c << (self.axis.bits - k))
    }

    /// Whether label bit k of a level is c.
    fn has(&self, number: usize, k: u8, c: u8) -> bool
        requires { number < 16 }
        ensures { result ≡ nat_eq (label_bit self.now.axis.bits k number) c }
    {
        label_bit(self.axis.bits, k, number as u8) == c
    }

    /// The least squared distance from the levels whose label bit k is c.
    fn least_with(&self, k: u8, c: u8) -> u32
        requires within { BitOf self.now.axis.bits k }
        requires value { c < 2 }
        ensures { result ≡ least_with self.now.axis.bits k c (at self.now.squared) }
    {
        let mut least = self.squared[self.first_with(k, c)];
        let levels = usize::from(self.axis.levels());
        for (number, &square) in self.squared[..levels].iter().enumerate() {
            if self.has(number, k, c) {
                least = least.min(square);
            }
        }
        least
    }

    /// The exact soft bit k of the squared distances, zero past the last bit.
    fn exact_from(&self, k: u8) -> i32
        requires { 1 ≤ k }
        ensures { result ≡ exact_from self.now.squared self.now.axis.bits k }
    {
        if k > self.axis.bits {
            return 0;
        }
        let zero = i64::from(self.least_with(k, 0));
        let one = i64::from(self.least_with(k, 1));
        ((zero - one) / 256) as i32
    }

    /// The exact soft bit k, zero past the last bit, of whatever reading has these squared distances.
    // Two functions: the meaning of `exact_demapping` is shut, so the code is held to its open form in `exact_from`, and this one to it.
    fn exact_bit(&self, k: u8) -> i32
        requires { 1 ≤ k }
        ensures { (r : ℤ) → Squares self.now.axis.bits r self.now.squared → result ≡ exact_demapping.answer self.now.axis.bits k r }
    {
        self.exact_from(k)
    }
}

/// Answers the exact soft bits.
#[derive(Clone, Copy)]
pub struct Exact;

impl Demapper for Exact {
    ghost demapping = { λ _. exact_demapping };

    fn soft(&self, axis: Axis, reading: Reading) -> [i32; 4] {
        let distances = Distances::of(axis, reading);
        array::from_fn(|place| distances.exact_bit(place as u8 + 1))
    }
}
