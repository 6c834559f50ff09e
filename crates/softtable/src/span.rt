// The readings that a call asks for.
ghost use Rattle.softtable.specs.Spans.{spans};
ghost use Rattle.std.specs.Prelude.{◌≡◌};

/// The readings from one to another, so many steps apart, on an axis with so many bits.
// Plain numbers: narrower types would ask more of whoever makes one.
#[derive(Clone, Copy, PartialEq, Eq, Debug)]
pub struct Span {
    pub bits: u8,
    pub from: i32,
    pub to: i32,
    pub apart: u32,
}

impl Span {
    /// Whether it has this reading.
    pub fn has(&self, r: i32) -> bool
        ensures { result ≡ spans self.now r }
    {
        self.from <= r && r <= self.to && r.abs_diff(self.from).checked_rem(self.apart) == Some(0)
    }
}
