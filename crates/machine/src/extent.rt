//! Addresses from one up to another.

ghost use Rattle.std.specs.Prelude.{◌≡◌, nat_le, nat_lt, ◌&&◌};

/// The addresses from `from` up to `end`: none if `end` isn't above `from`.
#[derive(Clone, Copy, Debug, PartialEq, Eq)]
pub struct Extent {
    pub from: u16,
    pub end: u16,
}

impl Extent {
    /// Whether an address is in it.
    #[inline(always)]
    pub fn contains(self, at: u16) -> bool
        ensures { result ≡ (nat_le self.from at && nat_lt at self.end) }
    {
        self.from <= at && at < self.end
    }

    /// Whether it has no address.
    pub fn is_empty(self) -> bool
        ensures { result ≡ nat_le self.end self.from }
    {
        self.end <= self.from
    }
}
